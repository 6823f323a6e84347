// Answers as replies: what came of the call, then its numbers, with 0 for what it has not.
ghost use Rattle.std.specs.Prelude.{◌≡◌, ℕ, List};
ghost use Rattle.figures_c.specs.Reply.{done_reply, length_reply, rows_reply, answer_reply, result_reply};

use clock::Length;
use figures::{Answer, Refusal};

// What came of a call: the first number of its reply.
const REFUSED: u32 = 0;

const ANSWER: u32 = 1;

const NONE: u32 = 2;

// What a call answers has a reply.
pub trait Reply {
    ghost reply_of: { Self → List ℕ };

    fn reply(self) -> [u32; 5]
        ensures { result ≡ reply_of self };
}

impl Reply for () {
    ghost reply_of = { done_reply };

    fn reply(self) -> [u32; 5] {
        [ANSWER, 0, 0, 0, 0]
    }
}

impl Reply for Option<Length> {
    ghost reply_of = { length_reply };

    fn reply(self) -> [u32; 5] {
        match self {
            Some(length) => [ANSWER, length.0, 0, 0, 0],
            None => [NONE, 0, 0, 0, 0],
        }
    }
}

// The number of rows.
impl Reply for u32 {
    ghost reply_of = { rows_reply };

    fn reply(self) -> [u32; 5] {
        [ANSWER, self, 0, 0, 0]
    }
}

impl Reply for Answer {
    ghost reply_of = { answer_reply };

    fn reply(self) -> [u32; 5] {
        match self {
            Answer::Value {
                value,
                from,
                to,
                visits,
            } => [ANSWER, value.0, from, to, visits],
            Answer::Nothing { visits } => [NONE, 0, 0, 0, visits],
            Answer::Refused { number, place } => [REFUSED, number, place, 0, 0],
        }
    }
}

impl<T: Reply> Reply for Result<T, Refusal> {
    ghost reply_of = { result_reply T.reply_of };

    fn reply(self) -> [u32; 5] {
        match self {
            Ok(answer) => answer.reply(),
            Err(refusal) => [REFUSED, refusal.number(), refusal.place(), 0, 0],
        }
    }
}
