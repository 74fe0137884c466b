//! Reports, by the worked examples.

use crate::tests::replaying::reports;
use crate::tests::texts::STORED;
use nd_test_fixtures::bundles::{CHAIN, PLAIN_2};
use nd_test_fixtures::parks::{Park, builders_alone};

/// The report of the stored run.
pub const STORED_REPORT: &[u8] =
    b"total 3\nwaiting 0\nleased 0\nbuilt 3\nfailed 0\ncancelled 0\nmachine 0 up 0/0 local\nmachine 1 up 0/1 ssh://m\ndrv 0 built /nix/store/00000000000000000000000000000000-n0.drv\ndrv 1 built /nix/store/11111111111111111111111111111111-n1.drv\ndrv 2 built /nix/store/22222222222222222222222222222222-n2.drv\n";

/// The report of two plain nodes where the local machine is drained after its one choice.
const DRAINED_REPORT: &[u8] =
    b"total 2\nwaiting 0\nleased 1\nbuilt 0\nfailed 1\ncancelled 0\nmachine 0 down 1/1 local\ndrv 0 leased /nix/store/00000000000000000000000000000000-n0.drv\ndrv 1 failed /nix/store/11111111111111111111111111111111-n1.drv\n";

/// The report of an empty bundle without builders.
const EMPTY_REPORT: &[u8] =
    b"total 0\nwaiting 0\nleased 0\nbuilt 0\nfailed 0\ncancelled 0\nmachine 0 up 0/1 local\n";

#[test]
fn stored_run(rt: HostRuntime) {
    let park = builders_alone(CHAIN, "m");
    assert!(rt; reports(rt.alloc(), &park, STORED, STORED_REPORT));
}

#[test]
fn drained_local(rt: HostRuntime) {
    let park = Park {
        bundle: PLAIN_2,
        builders: "",
        jobs: 1,
    };
    let text = b"nix-dispatch-history 2\nchosen 0 0 0\ndrain 0\nnobuilder 1\n";
    assert!(rt; reports(rt.alloc(), &park, text, DRAINED_REPORT));
}

#[test]
fn empty_bundle(rt: HostRuntime) {
    let park = Park {
        bundle: "",
        builders: "",
        jobs: 1,
    };
    assert!(rt; reports(rt.alloc(), &park, b"nix-dispatch-history 1\n", EMPTY_REPORT));
}
