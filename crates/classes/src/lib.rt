// The class of a team, by which bands are sold.
#![tactic(auto)]

ghost use Rattle.std.specs.Prelude.{◌≡◌};
ghost use Rattle.graph.specs.Class.{class_of, same_class};

use graph::Class;

// The class of a team: no team is above 31.
fn class_of(team: usize) -> Class
    ensures { result ≡ class_of team }
{
    match team {
        0 => Class::None,
        1..=9 => Class::Wards,
        10..=19 => Class::Clinics,
        20..=29 => Class::Switchboards,
        _ => Class::OutsideLines,
    }
}

// Whether two teams are of one class.
pub fn same_class(team: usize, named: usize) -> bool
    ensures { result ≡ same_class team named }
{
    class_of(team) == class_of(named)
}
