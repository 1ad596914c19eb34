use sd_spec::Ending;

// The ending of the earlier runs, that of the later one, and that of all.
static JOINED: [(Ending, Ending, Ending); 11] = [
    (Ending::Opened, Ending::Opened, Ending::Opened),
    (Ending::Opened, Ending::Gaps(3), Ending::Gaps(3)),
    (Ending::Gaps(3), Ending::Opened, Ending::Gaps(3)),
    (Ending::Gaps(3), Ending::Gaps(4), Ending::Gaps(7)),
    (
        Ending::Gaps(3),
        Ending::Gaps(u64::MAX),
        Ending::Gaps(u64::MAX),
    ),
    (Ending::Gaps(3), Ending::Unheard(2), Ending::Unheard(2)),
    (Ending::Unheard(2), Ending::Revoked(5), Ending::Revoked(5)),
    (Ending::Revoked(5), Ending::Revoked(2), Ending::Revoked(5)),
    (Ending::Revoked(5), Ending::Unclosed(0), Ending::Unclosed(0)),
    (
        Ending::Unclosed(9),
        Ending::Unclosed(4),
        Ending::Unclosed(9),
    ),
    (Ending::Unclosed(9), Ending::NoCat, Ending::NoCat),
];

#[test]
fn endings_are_joined(rt: HostRuntime) {
    for (earlier, later, all) in &JOINED {
        assert!(rt; earlier.with(*later) == *all);
    }
}
