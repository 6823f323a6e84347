// The office check, for C.
ghost use Rattle.figures.specs.Promises.{OfficePromise};
ghost use Rattle.figures_c.specs.Reply.{office_reply, Replied};

use crate::reply::Reply;
use figures::office_check;

#[tactic(auto, unfolding(crate::specs::Reply::Replied))]
#[unsafe(no_mangle)]
pub extern "C" fn figures_office_check(list: &[u32], n: u32, reply: &mut [u32; 5])
    ensures { Replied office_reply (OfficePromise list.now n) reply.new }
{
    *reply = office_check(list, n).reply();
}
