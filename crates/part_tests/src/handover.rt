//! A whole handover, and where the right to decide stands on the way.
use dtx_values::{Cause, EnlNo};
use promotion::{Handover, HandoverAct, Right};
use std::process::Abort;
use tm_proxy::ProxyNews;

fn enl(rt: &impl Abort, n: u32) -> EnlNo {
    EnlNo::new(n).expect(rt, "no such number")
}

#[test]
fn it_is_over_once_its_enlistment_is_enlisted(rt: HostRuntime) {
    let (e1, e2) = (enl(&rt, 1), enl(&rt, 2));
    let steps = [
        (
            ProxyNews::Created,
            HandoverAct::SendEnlist(e1),
            Right::InFlight,
        ),
        (ProxyNews::Begun(1), HandoverAct::SendVoter, Right::InFlight),
        (
            ProxyNews::Enlisted(e2),
            HandoverAct::Nothing,
            Right::InFlight,
        ),
        (ProxyNews::AskVote, HandoverAct::Nothing, Right::InFlight),
        (ProxyNews::Enlisted(e1), HandoverAct::Over, Right::Local),
        (ProxyNews::Enlisted(e1), HandoverAct::Nothing, Right::Local),
    ];
    let mut h = Handover::new();
    assert!(rt; h.got(&ProxyNews::Begun(1)) == HandoverAct::Nothing);
    assert!(rt; h.place(false, false, false) == Right::Local);
    h.start(Cause::Second, Some(e1));
    for (news, act, right) in steps {
        assert!(rt; h.got(&news) == act && h.place(false, false, false) == right);
    }
    assert!(rt; h.is_over());
}
