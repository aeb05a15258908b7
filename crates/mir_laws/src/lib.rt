//! Laws about the meaning of graphs, for those that answer a run's questions. The meaning stands in the crate `mir`; the
//! functions here have no code: each is a law about it.
#![tactic(auto)]

ghost use Rattle.mir_laws.specs.Questions.{MoreAnswersGoOn, AnswersChangeNoEnd, QuestionsAreCalls, QuestionsTakeBlocks, AnsweredCallsGoOn, NewAnswersExtend};

/// A run that asked goes on from the call where it asked, once it is told more.
pub fn more_answers_go_on()
    ensures { MoreAnswersGoOn }
{}

/// A run that ended, and didn't ask, ends the same with more answers.
pub fn answers_change_no_end()
    ensures { AnswersChangeNoEnd }
{}

/// A run asks for nothing but the body of a function that it calls, which it wasn't told.
pub fn questions_are_calls()
    ensures { QuestionsAreCalls }
{}

/// A run enters a block before it asks; where it goes on from a call, it does if that call asks for nothing.
pub fn questions_take_blocks()
    ensures { QuestionsTakeBlocks }
{}

/// A call whose query is answered asks no more.
pub fn answered_calls_go_on()
    ensures { AnsweredCallsGoOn }
{}

/// An answer to a query that had none keeps each answer that there was.
pub fn new_answers_extend()
    ensures { NewAnswersExtend }
{}
