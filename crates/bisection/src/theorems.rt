// What is promised of every search from a sound box, whatever answers it: each function's contract is one promise. How many
// questions it can put stands on `most_questions`.
ghost use Rattle.bisection.specs.Promises.{SettledIsFixed, PairContradicts, MonotoneHasNoPair, NoQuestionTwice, QuestionsAreInBox, SearchIsHonest, OnlyQuestionsMatter};

// What is settled is a point of the box that is its own answer.
pub fn settled_is_fixed() -> bool
    ensures { SettledIsFixed }
{
    true
}

// A pair is two questions that were put, the lower answered higher in the named coordinate.
pub fn pair_contradicts() -> bool
    ensures { PairContradicts }
{
    true
}

// So a search of a monotone map never ends in a pair.
pub fn monotone_has_no_pair() -> bool
    ensures { MonotoneHasNoPair }
{
    true
}

// No question is put twice, the one that met a fault included.
pub fn no_question_twice() -> bool
    ensures { NoQuestionTwice }
{
    true
}

// Every question is a point of the box.
pub fn questions_are_in_box() -> bool
    ensures { QuestionsAreInBox }
{
    true
}

// Entries and faults are as they were answered; budget and record suffice for the count, and are used up where one is refused.
pub fn search_is_honest() -> bool
    ensures { SearchIsHonest }
{
    true
}

// The outcome depends on nothing but the answers to the questions put.
pub fn only_questions_matter() -> bool
    ensures { OnlyQuestionsMatter }
{
    true
}
