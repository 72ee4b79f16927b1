// The grounds on which a call is refused, and what is quoted. A call answers by a `Result`: what it made, or its ground. The rules themselves are definitions, in specs/.
#![tactic(auto)]

// A row of document 01's table of refused calls, as document 02 has changed it. specs/Refusal.antt gives the number of each.
#[derive(Clone, Copy)]
pub enum Refusal {
    // the plan value breaks a limit of a plan
    PlanLimits,
    // fewer than 4 octets, or fewer than the counts give
    ImageShort,
    // more octets than the counts give
    ImageLong,
    // version neither 1 nor 2
    Version,
    // state count 0 or above 512
    StateCount,
    // transition count above 2,048
    TransitionCount,
    // a pad bit set, or a spare bit of version 1
    SpareBits,
    // a state number not below n: of mark or team, or an initial state
    StateNumber,
    // low above high, or high above 2,047
    Duration,
    // the list holds 2,048 already
    ListFull,
    // a number not below m
    TransitionNumber,
    // lent buffer below the length that is needed
    BufferLength,
    // value above 7
    MarksValue,
    // not exactly one start
    StartCount,
    // text off the form
    TextForm,
    // a transition's from not below n
    FromState,
    // a transition's to not below n
    ToState,
    // a team above 31
    TeamNumber,
}

// What the octets that replace a plan are: its image, which is read, or its text, which is imported.
#[derive(Clone, Copy)]
pub enum Format {
    Image,
    Text,
}

// A figure: its number or kind.
#[derive(Clone, Copy)]
pub enum Figure {
    Number(u32),
    None,
    Stranded,
    Endless,
}

// A figure, with the walk that was written for it: k transitions, and the place j for Endless.
#[derive(Clone, Copy)]
pub struct Quote {
    pub figure: Figure,
    pub k: usize,
    pub j: usize,
}

// The quotes of the four figures, in the record's order.
#[derive(Clone, Copy)]
pub struct FourQuotes {
    pub least_delay: Quote,
    pub greatest_delay: Quote,
    pub least_count: Quote,
    pub greatest_count: Quote,
}

// The answer of a quotation of all four figures of the plan that an image holds, and the bits that were taken of it.
#[derive(Clone, Copy)]
pub struct HeldQuotations {
    pub quotations: Result<FourQuotes, Refusal>,
    pub taken: usize,
}
