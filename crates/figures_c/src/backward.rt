// The calls that go back from a target, for C.
ghost use Rattle.figures.specs.Promises.{ask, DistancesToPromise, BackwardEccentricityPromise};
ghost use Rattle.figures_c.specs.Reply.{filled_reply, eccentricity_reply, Replied};

use crate::reply::Reply;
use figures::Ask;

#[tactic(auto, unfolding(crate::specs::Reply::Replied))]
#[unsafe(no_mangle)]
pub extern "C" fn figures_distances_to(
    list: &[u32],
    n: u32,
    asker: u32,
    a: u32,
    w: u32,
    target: u32,
    out: &mut [u32],
    scratch: &mut [u32],
    reply: &mut [u32; 5],
)
    ensures { Replied filled_reply (λ x. DistancesToPromise (ask list.now n asker a w) target out.old scratch.old x out.new scratch.new) reply.new }
{
    let ask = Ask {
        list,
        n,
        asker,
        a,
        w,
    };
    *reply = ask.distances_to(target, out, scratch).reply();
}

#[tactic(auto, unfolding(crate::specs::Reply::Replied))]
#[unsafe(no_mangle)]
pub extern "C" fn figures_backward_eccentricity(
    list: &[u32],
    n: u32,
    asker: u32,
    a: u32,
    w: u32,
    stop: u32,
    scratch: &mut [u32],
    reply: &mut [u32; 5],
)
    ensures { Replied eccentricity_reply (λ x. BackwardEccentricityPromise (ask list.now n asker a w) stop scratch.old x scratch.new) reply.new }
{
    let ask = Ask {
        list,
        n,
        asker,
        a,
        w,
    };
    *reply = ask.backward_eccentricity(stop, scratch).reply();
}
