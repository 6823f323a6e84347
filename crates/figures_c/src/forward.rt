// The calls that go forward from a source, for C.
ghost use Rattle.figures.specs.Promises.{ask, DistancesFromPromise, TablePromise, ForwardEccentricityPromise};
ghost use Rattle.figures_c.specs.Reply.{filled_reply, eccentricity_reply, Replied};

use crate::reply::Reply;
use figures::Ask;

#[tactic(auto, unfolding(crate::specs::Reply::Replied))]
#[unsafe(no_mangle)]
pub extern "C" fn figures_distances_from(
    list: &[u32],
    n: u32,
    asker: u32,
    a: u32,
    w: u32,
    source: u32,
    out: &mut [u32],
    reply: &mut [u32; 5],
)
    ensures { Replied filled_reply (λ x. DistancesFromPromise (ask list.now n asker a w) source out.old x out.new) reply.new }
{
    let ask = Ask {
        list,
        n,
        asker,
        a,
        w,
    };
    *reply = ask.distances_from(source, out).reply();
}

#[tactic(auto, unfolding(crate::specs::Reply::Replied))]
#[unsafe(no_mangle)]
pub extern "C" fn figures_table(
    list: &[u32],
    n: u32,
    asker: u32,
    a: u32,
    w: u32,
    out: &mut [u32],
    reply: &mut [u32; 5],
)
    ensures { Replied filled_reply (λ x. TablePromise (ask list.now n asker a w) out.old x out.new) reply.new }
{
    let ask = Ask {
        list,
        n,
        asker,
        a,
        w,
    };
    *reply = ask.table(out).reply();
}

#[tactic(auto, unfolding(crate::specs::Reply::Replied))]
#[unsafe(no_mangle)]
pub extern "C" fn figures_forward_eccentricity(
    list: &[u32],
    n: u32,
    asker: u32,
    a: u32,
    w: u32,
    stop: u32,
    reply: &mut [u32; 5],
)
    ensures { Replied eccentricity_reply (ForwardEccentricityPromise (ask list.now n asker a w) stop) reply.new }
{
    let ask = Ask {
        list,
        n,
        asker,
        a,
        w,
    };
    *reply = ask.forward_eccentricity(stop).reply();
}
