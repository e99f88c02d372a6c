// Why an operation refuses what it is given, by number.
ghost use Rattle.std.specs.Prelude.{◌≡◌};
ghost use Rattle.task.specs.Answers.{number_of};

use super::Refusal;

#[derive(Clone, Copy, Debug, PartialEq, Eq)]
pub enum Cause {
    // Under 8 bytes.
    ShortFile = 1,
    // A size out of range.
    Size = 2,
    // A length that is not 8 + 5 × N.
    Length = 3,
    // A mark that may not stand there, or rows that end inside a task.
    Mark = 4,
    // A value that its mark does not allow.
    Value = 5,
    // ACTION rows or preferences of another number than the sizes say.
    Counts = 6,
    // A translation of more facts or actions than a task may have.
    TooMany = 7,
    // A translation of more rows than a file may have.
    TranslationRows = 8,
    // An area shorter than the output.
    ShortOutput = 9,
    // A plan of more than 2,048 steps.
    LongPlan = 10,
    // A step that the task has not.
    Step = 11,
    // A text that is no plan.
    Text = 12,
    // Preferences, where a task may have none.
    Preferences = 13,
    // An area shorter than its PDDL text.
    ShortArea = 14,
    // A cost or a met preference that no plan can have.
    Argument = 15,
    // A limit of 0, over 1,024 or over the lent list.
    Limit = 16,
    // An effect of more than 64 choices.
    Choices = 17,
    // A file that is no plans.
    Plans = 18,
}

impl Cause {
    // The number by which callers know it.
    pub fn number(self) -> u8
        ensures { result ≡ number_of self }
    {
        self as u8
    }

    // The refusal for this cause, which lies at a place.
    pub fn at(self, place: u16) -> Refusal
        ensures { result ≡ record { cause = self; place = place } }
    {
        Refusal { cause: self, place }
    }
}
