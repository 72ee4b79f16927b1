// A packed field put at any bit position of a slice of octets, every other bit left.
#![tactic(auto)]

ghost use Rattle.std.specs.Prelude.{◌≡◌, ◌^◌, ◌<◌};
ghost use Rattle.field.specs.Field.{Within, with_field};

// Makes the field of width bits at bit position at value, and leaves every other bit.
pub fn put(octets: &mut [u8], at: usize, width: usize, value: u32)
    requires within { Within octets.old at width }
    requires value_bound { value < 2 ^ width }
    ensures { octets.new ≡ with_field octets.old at width value }
{
    let stop = at + width;
    let end = (stop + 7) / 8;
    let after = 8 * end - stop;
    let whole = window::window(octets, at / 8, end);
    let before = (whole >> after) >> width;
    let low = whole & ((1u64 << after) - 1);
    store::store(
        octets,
        at / 8,
        end,
        (((before << width) + u64::from(value)) << after) + low,
    )
}
