// What is replied to a question: where the first checks refuse, and by the quick engine.
ghost use Rattle.std.specs.Prelude.{◌≡◌, suc};
ghost use Rattle.quick.specs.Lent.{plain_reply, refused_reply};
ghost use Rattle.quick.specs.Reading.{ReplyNumbers};

use crate::unpacked::Unpacked;
use crate::{Question, Reply, answers};
use verdict::{Refusal, Rejection};

impl Question {
    // The reply where nothing of it is asked yet.
    pub fn refused(self, why: Refusal) -> Reply
        ensures value { result ≡ refused_reply why self }
        ensures reply_numbers { ReplyNumbers result }
    {
        match self {
            Question::Sheet(_) => Reply::Sheet(Err(why)),
            Question::Density(_, _, _) => Reply::Check(Err(Rejection::Refused(why))),
            Question::Pair(_, _, _) => Reply::Check(Err(Rejection::Refused(why))),
        }
    }
}

// The reply by the table's terms.
pub fn quick(unpacked: &Unpacked, question: Question) -> Reply
    ensures value { let s = unpacked.now.setting in result ≡ plain_reply (suc s.v) s.table.kind s.table.bytes.now question }
    ensures reply_numbers { ReplyNumbers result }
{
    match question {
        Question::Sheet(state) => {
            let answer = answers::state_sheet(unpacked, state);
            Reply::Sheet(answer)
        }
        Question::Density(state, target, tolerance) => {
            let answer = answers::density_check(unpacked, state, target, tolerance);
            Reply::Check(answer)
        }
        Question::Pair(state, vapour, tolerances) => {
            let answer = answers::pair_check(unpacked, state, vapour, tolerances);
            Reply::Check(answer)
        }
    }
}
