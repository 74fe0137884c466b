//! 2,048 random worlds. What a simulation of each has to write was worked out by `checks/worlds.py`, from
//! the plain rules, which keep nothing but the history; `checks/worlds.py` prints the table anew.

use crate::tests::drawing::{Scribe, draw_builders, draw_bundle, draw_info, draw_script};
use crate::tests::running::digest_after;
use nd_test_fixtures::places::{NOWHERE, Place};
use std::alloc::Global;
use std::thread::Threads;

/// How many worlds have one digest.
const BLOCK: usize = 64;

/// Where a digest begins.
const START: u64 = 14_695_981_039_346_656_037;

/// The digests of the blocks of worlds.
const DIGESTS: [u64; 32] = [
    7_443_577_170_505_374_943,
    17_603_362_232_069_611_239,
    7_440_927_329_102_007_764,
    5_073_816_154_980_991_935,
    13_173_270_055_516_393_752,
    428_026_117_622_869_955,
    1_447_634_266_994_404_881,
    7_707_547_019_500_884_479,
    14_734_007_847_428_968_214,
    16_762_424_822_717_317_316,
    15_944_025_157_459_562_941,
    4_171_954_783_766_167_007,
    10_512_206_249_272_168_332,
    6_192_880_018_890_968_694,
    12_238_389_547_185_046_428,
    5_412_740_762_582_948_268,
    4_022_960_846_606_159_812,
    4_795_520_582_942_035_685,
    16_520_262_611_170_148_097,
    17_149_864_303_829_433_370,
    6_519_088_558_998_872_976,
    13_646_678_646_850_860_537,
    1_560_793_269_217_001_860,
    4_006_699_279_955_442_442,
    17_041_453_738_586_763_056,
    15_234_474_329_992_621_682,
    8_599_591_627_365_508_852,
    8_928_699_194_750_288_935,
    8_277_256_835_241_967_458,
    8_028_974_285_406_779_800,
    11_244_126_559_898_516_835,
    1_519_105_548_888_903_234,
];

/// The further local systems and the local features of a world.
fn local_words(scribe: &mut Scribe) -> (&'static str, &'static str) {
    let extra = scribe.pick(&["", "aarch64-linux"]);
    let features = scribe.pick(&["", "k", "k,b"]);
    (extra, features)
}

/// The place of a world with these texts.
pub(crate) fn place_of(alloc: Global, world: usize, texts: &Texts) -> Place<'_> {
    let mut scribe = Scribe::new(alloc, world, 4);
    let jobs = match scribe.below(3) {
        0 => 0,
        1 => 1,
        _ => 2,
    };
    let keep_going = scribe.below(8) > 0;
    let (extra, features) = local_words(&mut scribe);
    Place {
        bundle: texts.bundle.text(),
        builders: texts.park.text(),
        jobs,
        keep_going,
        extra,
        features,
        info: texts.info.text(),
        ..NOWHERE
    }
}

/// The texts of a world.
#[derive(Drop)]
pub(crate) struct Texts {
    bundle: Scribe,
    park: Scribe,
    info: Scribe,
    script: Scribe,
}

impl Texts {
    /// The script.
    pub(crate) fn script(&self) -> &str {
        self.script.text()
    }
}

/// What is drawn of a world.
pub(crate) fn draw(alloc: Global, world: usize) -> Texts {
    let mut texts = Texts {
        bundle: Scribe::new(alloc, world, 0),
        park: Scribe::new(alloc, world, 1),
        info: Scribe::new(alloc, world, 2),
        script: Scribe::new(alloc, world, 3),
    };
    draw_bundle(world, &mut texts.bundle);
    draw_builders(world, &mut texts.park);
    draw_info(&mut texts.info);
    draw_script(world, &mut texts.script);
    texts
}

/// A digest gone on with by what is written of a world.
fn after_world<R: Threads + Sync>(rt: &R, alloc: Global, world: usize, digest: u64) -> u64 {
    let texts = draw(alloc, world);
    let place = place_of(alloc, world, &texts);
    digest_after(rt, alloc, &place, texts.script(), digest)
}

/// Whether a block of worlds has this digest.
fn is_digest<R: Threads + Sync>(rt: &R, alloc: Global, block: usize, wanted: u64) -> bool {
    let mut digest = START;
    for place in 0..BLOCK {
        let world = block.wrapping_mul(BLOCK).wrapping_add(place);
        digest = after_world(rt, alloc, world, digest);
    }
    digest == wanted
}

/// Whether eight blocks of worlds, from this one on, have the digests of the table.
fn are_digests<R: Threads + Sync>(rt: &R, alloc: Global, first: usize) -> bool {
    for (block, wanted) in DIGESTS.iter().enumerate().skip(first).take(8) {
        if !is_digest(rt, alloc, block, *wanted) {
            return false;
        }
    }
    true
}

#[test]
fn first_worlds(rt: HostRuntime) {
    assert!(rt; are_digests(&rt, rt.alloc(), 0));
}

#[test]
fn second_worlds(rt: HostRuntime) {
    assert!(rt; are_digests(&rt, rt.alloc(), 8));
}

#[test]
fn third_worlds(rt: HostRuntime) {
    assert!(rt; are_digests(&rt, rt.alloc(), 16));
}

#[test]
fn fourth_worlds(rt: HostRuntime) {
    assert!(rt; are_digests(&rt, rt.alloc(), 24));
}
