// Answers to a pick (document 01, "One pick").
ghost use Rattle.std.specs.Prelude.{◌≡◌};
ghost use Rattle.plans.specs.Answer.{number_of};

// What a pick is answered with.
#[derive(Clone, Copy, PartialEq, Eq, Debug)]
pub enum Answer {
    Performed,
    Ended,
    NoTuple,
    NoRoom,
    NoRight,
    NotWithin,
    NotSet,
    FreeSlot,
    NotInUse,
    Malformed,
    Unsound,
}

// The paper's number of an answer.
#[tactic(auto, unfolding(crate::specs::Answer::number_of))]
pub fn number_of(answer: Answer) -> u8
    ensures { result ≡ number_of answer }
{
    answer as u8
}
