//! Verdicts on whole histories.
use dtx_values::{Class, CloneKind, CloneNo, Conn, Dir, EnlNo, Entry, Message, Outcome, Party};
use history_judge::{Verdict, judge};

#[test]
fn judges_histories(rt: HostRuntime) {
    let e1 = EnlNo::new(1).expect(&rt, "no such number");
    let c1 = CloneNo::new(1).expect(&rt, "no such number");
    let (committed, aborted, in_doubt) = (Outcome::Committed, Outcome::Aborted, Outcome::InDoubt);
    let client = Party::Client;
    let cases: [(&[Entry], Verdict); 9] = [
        (&[], Verdict::Fine),
        (&[Entry::Told(client, committed)], Verdict::NotJustified(0)),
        // An owner that answers committed after a told aborted.
        (
            &[
                Entry::RollbackAsked,
                Entry::Told(client, aborted),
                Entry::OwnerAnswered(e1, committed),
            ],
            Verdict::Disagree(2),
        ),
        // A second decision.
        (
            &[
                Entry::RollbackAsked,
                Entry::Decided(aborted),
                Entry::Told(client, aborted),
                Entry::Decided(aborted),
                Entry::Told(client, committed),
            ],
            Verdict::Disagree(3),
        ),
        // A timeout after the seal.
        (
            &[
                Entry::CommitAsked,
                Entry::Sealed,
                Entry::TimedOut,
                Entry::Decided(aborted),
            ],
            Verdict::NotJustified(3),
        ),
        // A blocking clone that is open.
        (
            &[
                Entry::Cloned(c1, CloneKind::Block),
                Entry::CommitAsked,
                Entry::Sealed,
                Entry::Decided(committed),
            ],
            Verdict::NotJustified(3),
        ),
        // An owner to which the commit wasn't handed, and one that is lost, to which no doubt is told.
        (
            &[
                Entry::Enlisted(e1, Class::DurableSingle),
                Entry::CommitAsked,
                Entry::Sealed,
                Entry::Told(client, committed),
            ],
            Verdict::NotJustified(3),
        ),
        (
            &[
                Entry::Enlisted(e1, Class::DurableSingle),
                Entry::CommitAsked,
                Entry::Handed(e1),
                Entry::Lost(e1),
                Entry::Told(client, in_doubt),
                Entry::Told(Party::Enl(e1), in_doubt),
            ],
            Verdict::NotJustified(5),
        ),
        // A message without a line counts as the end of its connection.
        (
            &[
                Entry::Got(Conn::Begin, Dir::Up, Message::VoterYes),
                Entry::Decided(aborted),
            ],
            Verdict::Fine,
        ),
    ];
    for (h, want) in cases {
        assert!(rt; judge(h) == want);
    }
}
