// Refusals and figures as numbers: a refusal's number in the table, and the kind and the number of a figure in the record.
#![tactic(auto)]

ghost use Rattle.std.specs.Prelude.{◌≡◌};
ghost use Rattle.graph.specs.Figure.{kind as kind_of, value as value_of};
ghost use Rattle.rules.specs.Quotations.{meant};
ghost use Rattle.rules.specs.Refusal.{number as number_of};

use rules::{Figure, Refusal};

// The kind of a figure, as the record has it.
pub fn kind(figure: Figure) -> u8
    ensures { result ≡ kind_of (meant figure) }
{
    match figure {
        Figure::Number(_) => 0,
        Figure::None => 1,
        Figure::Stranded => 2,
        Figure::Endless => 3,
    }
}

// The number of a figure, zero where it is a kind.
pub fn value(figure: Figure) -> u32
    ensures { result ≡ value_of (meant figure) }
{
    match figure {
        Figure::Number(x) => x,
        Figure::None => 0,
        Figure::Stranded => 0,
        Figure::Endless => 0,
    }
}

// The number of a refusal, as the table has it.
pub fn number(refusal: Refusal) -> u32
    ensures { result ≡ number_of refusal }
{
    match refusal {
        Refusal::PlanLimits => 0,
        Refusal::ImageShort => 1,
        Refusal::ImageLong => 2,
        Refusal::Version => 3,
        Refusal::StateCount => 4,
        Refusal::TransitionCount => 5,
        Refusal::SpareBits => 6,
        Refusal::StateNumber => 7,
        Refusal::Duration => 8,
        Refusal::ListFull => 9,
        Refusal::TransitionNumber => 10,
        Refusal::BufferLength => 11,
        Refusal::MarksValue => 12,
        Refusal::StartCount => 14,
        Refusal::TextForm => 15,
        Refusal::FromState => 16,
        Refusal::ToState => 17,
        Refusal::TeamNumber => 18,
    }
}
