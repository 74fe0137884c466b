//! Random small worlds as texts, drawn from their numbers: a bundle of one to eight derivations, up to four
//! builders, an info text and a script. `checks/worlds.py` draws the same ones.

use std::alloc::Global;

/// How many commands a script has.
const COMMANDS: usize = 48;

/// The digits.
const DIGITS: [&str; 10] = ["0", "1", "2", "3", "4", "5", "6", "7", "8", "9"];

/// Numbers from a seed, and the text that is written of them. Where memory is wanting the text has a gap.
#[derive(Drop)]
pub(crate) struct Scribe {
    state: u64,
    text: String,
}

impl Scribe {
    /// The beginning of a part of a world.
    pub(crate) fn new(alloc: Global, world: usize, part: u64) -> Self {
        Scribe {
            state: (world as u64).wrapping_mul(8).wrapping_add(part),
            text: String::new(alloc),
        }
    }

    /// What was written.
    pub(crate) fn text(&self) -> &str {
        self.text.as_str()
    }

    /// The next number below a limit.
    pub(crate) fn below(&mut self, limit: usize) -> usize {
        let grown = self.state.wrapping_mul(6_364_136_223_846_793_005);
        self.state = grown.wrapping_add(1_442_695_040_888_963_407);
        let number = (self.state >> 33) as usize;
        number.checked_rem(limit).unwrap_or(0)
    }

    /// One of these words.
    pub(crate) fn pick<'a>(&mut self, words: &[&'a str]) -> &'a str {
        let place = self.below(words.len());
        match words.get(place) {
            Some(word) => word,
            None => "",
        }
    }

    /// Writes this.
    fn put(&mut self, words: &str) {
        let _wanting = self.text.push_str(words);
    }

    /// Writes one of these words.
    fn put_one(&mut self, words: &[&str]) {
        let word = self.pick(words);
        self.put(word);
    }

    /// Writes a number below ten.
    fn put_digit(&mut self, number: usize) {
        match DIGITS.get(number) {
            Some(digit) => self.put(digit),
            None => {}
        }
    }

    /// Writes a store path.
    fn put_path(&mut self, number: usize, name: &str) {
        self.put("/nix/store/0000000000000000000000000000000");
        self.put_digit(number);
        self.put(name);
    }

    /// Writes a comma, but for the first item of a list.
    fn put_comma(&mut self) {
        if !self.text.as_str().ends_with('[') {
            self.put(",");
        }
    }
}

/// How many derivations a world has.
fn drvs_of(world: usize) -> usize {
    1 + world % 8
}

/// How many builders it has.
fn builders_of(world: usize) -> usize {
    (world / 8 % 9 + 1) / 2
}

/// Whether each derivation stands before its inputs in the bundle.
fn is_turned(world: usize) -> bool {
    world / 5 % 2 == 1
}

/// Whether a derivation has a second output.
fn has_library(world: usize, drv: usize) -> bool {
    (world / 40).wrapping_add(drv) % 3 == 0
}

/// The outputs of a derivation. They are sometimes those of another one.
fn draw_outputs(world: usize, drv: usize, scribe: &mut Scribe) {
    let mut owner = drv;
    if scribe.below(8) == 0 {
        owner = scribe.below(drvs_of(world));
    }
    if has_library(world, drv) {
        scribe.put("(\"lib\",\"");
        let name = scribe.pick(&["-lib", "-lib", "-lib", "-out"]);
        scribe.put_path(owner, name);
        scribe.put("\",\"\",\"\"),");
    }
    scribe.put("(\"out\",\"");
    scribe.put_path(owner, "-out");
    scribe.put("\",\"\",\"\")");
}

/// An input of a derivation.
fn draw_input(world: usize, other: usize, scribe: &mut Scribe) {
    scribe.put_comma();
    scribe.put("(\"");
    scribe.put_path(other, "-n.drv");
    scribe.put("\",[");
    let names = scribe.pick(&["\"lib\"", "\"lib\",\"out\"", "\"out\""]);
    if has_library(world, other) {
        scribe.put(names);
    } else {
        scribe.put("\"out\"");
    }
    scribe.put("])");
}

/// The inputs of a derivation.
fn draw_inputs(world: usize, drv: usize, scribe: &mut Scribe) {
    for other in 0..drvs_of(world) {
        let may_be_input = if is_turned(world) {
            other > drv
        } else {
            other < drv
        };
        if may_be_input && scribe.below(3) == 0 {
            draw_input(world, other, scribe);
        }
    }
}

/// The sources of a derivation.
fn draw_sources(scribe: &mut Scribe) {
    for source in 0..3 {
        if scribe.below(4) == 0 {
            scribe.put_comma();
            scribe.put("\"");
            scribe.put_path(source, "-src");
            scribe.put("\"");
        }
    }
}

/// Where a derivation may be built.
fn draw_needs(scribe: &mut Scribe) {
    scribe.put_one(&[
        "x86_64-linux",
        "x86_64-linux",
        "x86_64-linux",
        "aarch64-linux",
        "builtin",
    ]);
    scribe.put("\",\"");
    scribe.put_one(&["/bin/sh", "/bin/sh", "/bin/sh", "builtin:b"]);
    scribe.put("\",[],[(\"preferLocalBuild\",\"");
    scribe.put_one(&["0", "0", "1"]);
    scribe.put("\"),(\"requiredSystemFeatures\",\"");
    scribe.put_one(&["", "", "", "", "", "", "k", "b", "b k"]);
    scribe.put("\")])\n");
}

/// The bundle of a world.
pub(crate) fn draw_bundle(world: usize, scribe: &mut Scribe) {
    for drv in 0..drvs_of(world) {
        scribe.put_path(drv, "-n.drv");
        scribe.put(" Derive([");
        draw_outputs(world, drv, scribe);
        scribe.put("],[");
        draw_inputs(world, drv, scribe);
        scribe.put("],[");
        draw_sources(scribe);
        scribe.put("],\"");
        draw_needs(scribe);
    }
}

/// The builders list of a world.
pub(crate) fn draw_builders(world: usize, scribe: &mut Scribe) {
    for place in 0..builders_of(world) {
        scribe.put("m");
        scribe.put_digit(place + 1);
        scribe.put(" ");
        scribe.put_one(&["-", "aarch64-linux", "x86_64-linux,aarch64-linux"]);
        scribe.put(" - ");
        scribe.put_one(&["1", "2", "3", "1", "2", "0"]);
        scribe.put(" ");
        scribe.put_one(&["1", "1", "2", "3", "0.5", "1.25"]);
        scribe.put(" ");
        scribe.put_one(&["-", "k", "k,b"]);
        scribe.put(" ");
        scribe.put_one(&["-", "-", "-", "-", "b"]);
        scribe.put("\n");
    }
}

/// Some paths, less than so many.
fn draw_references(limit: usize, scribe: &mut Scribe) {
    for _drawn in 0..scribe.below(limit) {
        scribe.put(" ");
        let number = scribe.below(4);
        let name = scribe.pick(&["-src", "-src", "-out", "-lib"]);
        scribe.put_path(number, name);
    }
}

/// The info text of a world.
pub(crate) fn draw_info(scribe: &mut Scribe) {
    for number in 0..4 {
        if scribe.below(2) == 0 {
            let name = scribe.pick(&["-src", "-src", "-src", "-out"]);
            scribe.put_path(number, name);
            draw_references(3, scribe);
            scribe.put("\n");
        }
    }
}

/// A command of this word about a derivation.
fn put_call(word: &str, drv: usize, scribe: &mut Scribe) {
    scribe.put(word);
    scribe.put_digit(drv);
}

/// A build with references.
fn draw_reports(drv: usize, scribe: &mut Scribe) {
    put_call("built ", drv, scribe);
    scribe.put(" o");
    draw_references(2, scribe);
    if scribe.below(3) == 0 {
        scribe.put(" o");
        draw_references(3, scribe);
    }
}

/// A command that changes a machine.
fn draw_change(world: usize, scribe: &mut Scribe) {
    let machine = scribe.below(builders_of(world).wrapping_add(1));
    scribe.put_one(&["drain ", "enable ", "enable "]);
    scribe.put_digit(machine);
}

/// A command about a derivation, or sometimes about a machine.
fn draw_command(world: usize, drv: usize, scribe: &mut Scribe) {
    match scribe.below(32) {
        0..=7 => put_call("start ", drv, scribe),
        8..=11 => put_call("built ", drv, scribe),
        12..=19 => {
            put_call("start ", drv, scribe);
            put_call("\nbuilt ", drv, scribe);
        }
        20..=22 => {
            put_call("startwith ", drv, scribe);
            draw_references(3, scribe);
        }
        23..=25 => draw_reports(drv, scribe),
        26 | 27 => {
            let word = scribe.pick(&["lose ", "down ", "down "]);
            put_call(word, drv, scribe);
        }
        28 => {
            put_call("fail ", drv, scribe);
            scribe.put(" 3");
        }
        29 => draw_change(world, scribe),
        30 => put_call("ask ", drv, scribe),
        _ => {
            if scribe.below(8) > 0 {
                put_call("ask ", drv, scribe);
            } else {
                scribe.put("stop");
            }
        }
    }
    scribe.put("\n");
}

/// The script of a world: about any derivation, or one that comes up after its inputs.
pub(crate) fn draw_script(world: usize, scribe: &mut Scribe) {
    for turn in 0..COMMANDS {
        let walk = if is_turned(world) {
            COMMANDS - 1 - turn
        } else {
            turn
        };
        let mut drv = walk.wrapping_mul(drvs_of(world)) / COMMANDS;
        if scribe.below(2) > 0 {
            drv = scribe.below(drvs_of(world));
        }
        draw_command(world, drv, scribe);
    }
}
