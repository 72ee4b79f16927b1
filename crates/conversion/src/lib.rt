// A plan from one form to the other: the image of the plan that a text holds or that a seed makes, and the text of the plan that an image holds.
#![tactic(auto)]

ghost use Rattle.generated.specs.Generated.{generated_graph};
ghost use Rattle.rules.specs.Aldebaran.{graph_in_text, export_text};
ghost use Rattle.rules.specs.Image.{image, graph_in};
ghost use Rattle.rules.specs.Quotations.{Write};
ghost use Rattle.conversion.specs.Rules.{image_rule, text_rule, seed_rule};

use rules::{Format, Refusal};

// The octets of the longest image: 4, 512 states and 2,048 transitions of 5 octets each.
pub const IMAGE_ROOM: usize = 10_756;

// The octets of the longest text: 21 of the first line, and 2,048 lines of 25.
pub const TEXT_ROOM: usize = 51_221;

// Puts the image of the plan that a text holds at the front of the buffer, and returns its length. The text is imported over a fresh plan.
pub fn to_image(text: &[u8], buffer: &mut [u8]) -> Result<usize, Refusal>
    ensures { Write (image (graph_in_text text.now)) (image_rule text.now buffer.old)
        buffer.old buffer.new result }
{
    let fresh = plan::fresh(1);
    let imported = plan::replace(fresh.plan, Format::Text, text);
    imported.answer?;
    plan::write(imported.plan, buffer)
}

// Puts the text of the plan that an image holds at the front of the buffer, and returns its length.
pub fn to_text(image: &[u8], buffer: &mut [u8]) -> Result<usize, Refusal>
    ensures { Write (export_text (graph_in image.now)) (text_rule image.now buffer.old)
        buffer.old buffer.new result }
{
    let held = plan::held(image);
    held.answer?;
    plan::export(held.plan, buffer)
}

// Puts the image of the plan of n states and m transitions that a seed makes at the front of the buffer, and returns its length.
pub fn of_seed(seed: u32, n: usize, m: usize, buffer: &mut [u8]) -> Result<usize, Refusal>
    ensures { Write (image (generated_graph seed n m)) (seed_rule seed n m buffer.old)
        buffer.old buffer.new result }
{
    let made = generation::generate(seed, n, m);
    made.answer?;
    plan::write(made.plan, buffer)
}
