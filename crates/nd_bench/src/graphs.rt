//! Graphs of derivations, as bundles.

use crate::texts::{Text, drawn, drawn_below, letters_of};
use std::alloc::{AllocError, Global};

/// What kind of derivations a graph has.
#[derive(Clone, Copy, PartialEq, Eq)]
pub(crate) enum Form {
    /// Of one system, without features.
    Plain,
    /// Of five classes of systems and features.
    Classes,
    /// With the variables of packages.
    Packages,
    /// Each wants a feature of its own.
    Features,
}

/// How a graph is made.
#[derive(Clone, Copy)]
pub(crate) struct Shape {
    /// What its random numbers begin with.
    pub(crate) seed: u64,
    /// How many derivations it has.
    pub(crate) count: usize,
    /// How many derivations of a layer one of the next may need: a power of two.
    pub(crate) width: usize,
    /// How many such layers stand side by side.
    pub(crate) stride: usize,
    /// How many inputs a derivation has at least, and at most so many more.
    pub(crate) inputs: usize,
    pub(crate) spread: usize,
    /// How many bytes a line of the bundle has at least.
    pub(crate) length: usize,
    pub(crate) form: Form,
}

/// The random letters of the store paths of a graph.
#[derive(Drop)]
pub(crate) struct Names {
    /// For each derivation those of its path.
    drvs: Vec<[u8; 32]>,
    /// For each derivation those of its output.
    outputs: Vec<[u8; 32]>,
    /// For each derivation a number by which their paths are ordered.
    order: Vec<u64>,
    /// Letters to fill a text with.
    filler: Vec<u8>,
}

/// A system, and required features with single spaces between them.
#[derive(Clone, Copy)]
pub(crate) struct Class {
    pub(crate) system: &'static [u8],
    pub(crate) features: &'static [u8],
}

const ONE: Class = Class {
    system: b"x86_64-linux",
    features: b"",
};

/// The class of this number.
pub(crate) fn class_at(number: usize) -> Class {
    match number % 5 {
        0 => ONE,
        1 => Class {
            system: b"x86_64-linux",
            features: b"big-parallel",
        },
        2 => Class {
            system: b"x86_64-linux",
            features: b"kvm nixos-test",
        },
        3 => Class {
            system: b"aarch64-linux",
            features: b"",
        },
        _ => Class {
            system: b"aarch64-linux",
            features: b"big-parallel",
        },
    }
}

impl Shape {
    /// The class of a derivation.
    fn class_of(&self, number: usize) -> Class {
        if self.form != Form::Classes {
            return ONE;
        }
        if self.stride > 1 {
            return class_at(number);
        }
        class_at(drawn_below(self.seed ^ 1, number as u64, 65_536))
    }

    /// The inputs of a derivation, which lie in the layer before its own.
    pub(crate) fn inputs_of(&self, alloc: Global, number: usize) -> Result<Vec<usize>, AllocError> {
        let mut inputs = Vec::new(alloc);
        let stride = self.stride.max(1);
        let width = self.width.max(1);
        let row = stride.saturating_mul(width).max(1);
        let layer = number / row;
        if layer == 0 {
            return Ok(inputs);
        }
        let first = (layer - 1)
            .saturating_mul(row)
            .saturating_add(number % stride);
        let draw = (number as u64).wrapping_mul(4);
        let seed = self.seed ^ 2;
        let more = drawn_below(seed, draw, self.spread.saturating_add(1));
        let start = drawn_below(seed, draw.wrapping_add(1), width);
        let step = drawn_below(seed, draw.wrapping_add(2), width) | 1;
        for place in 0..self.inputs.saturating_add(more).min(width) {
            let along = start.saturating_add(place.saturating_mul(step)) % width;
            inputs.push(first.saturating_add(along.saturating_mul(stride)))?;
        }
        Ok(inputs)
    }

    /// The inputs whose outputs the output of a derivation refers to: most of them.
    pub(crate) fn references_of(
        &self,
        alloc: Global,
        number: usize,
    ) -> Result<Vec<usize>, AllocError> {
        let inputs = self.inputs_of(alloc, number)?;
        let mut references = Vec::new(alloc);
        for input in inputs {
            let draw = (number as u64)
                .wrapping_mul(65_536)
                .wrapping_add(input as u64);
            if drawn(self.seed ^ 3, draw) % 5 != 0 {
                references.push(input)?;
            }
        }
        Ok(references)
    }
}

impl Names {
    /// The letters for a graph.
    pub(crate) fn new(alloc: Global, shape: &Shape) -> Result<Names, AllocError> {
        let mut drvs = Vec::with_capacity(alloc, shape.count)?;
        let mut outputs = Vec::with_capacity(alloc, shape.count)?;
        let mut order = Vec::with_capacity(alloc, shape.count)?;
        for number in 0..shape.count {
            let draw = (number as u64).wrapping_mul(8);
            let words = words_at(shape.seed, draw);
            order.push(words[0])?;
            drvs.push(letters_of(words))?;
            outputs.push(letters_of(words_at(shape.seed, draw.wrapping_add(4))))?;
        }
        Ok(Names {
            drvs,
            outputs,
            order,
            filler: filler(alloc, shape.seed)?,
        })
    }

    /// Puts the path of a derivation.
    fn put_drv(&self, text: &mut Text, number: usize) -> Result<(), AllocError> {
        put_path(text, self.drvs.as_slice().get(number), number)?;
        text.put(b".drv")
    }

    /// Puts the path of a derivation's output.
    pub(crate) fn put_output(&self, text: &mut Text, number: usize) -> Result<(), AllocError> {
        put_path(text, self.outputs.as_slice().get(number), number)
    }

    /// Puts so many letters, of those from a random place on.
    fn put_filler(&self, text: &mut Text, number: usize, count: usize) -> Result<(), AllocError> {
        let place = drawn_below(77, number as u64, 1_024);
        match self
            .filler
            .as_slice()
            .get(place..place.saturating_add(count))
        {
            Some(letters) => text.put(letters),
            None => Ok(()),
        }
    }
}

/// Three numbers of 60 bits.
fn words_at(seed: u64, draw: u64) -> [u64; 3] {
    [
        drawn(seed, draw) >> 4,
        drawn(seed, draw.wrapping_add(1)) >> 4,
        drawn(seed, draw.wrapping_add(2)) >> 4,
    ]
}

/// 4,096 random letters.
fn filler(alloc: Global, seed: u64) -> Result<Vec<u8>, AllocError> {
    let mut letters = Vec::with_capacity(alloc, 4_096)?;
    for draw in 0..128u64 {
        letters.extend_from_slice(&letters_of(words_at(seed ^ 4, draw.wrapping_mul(4))))?;
    }
    Ok(letters)
}

/// Puts a store path with these letters, whose name is `n` and the number.
fn put_path(text: &mut Text, letters: Option<&[u8; 32]>, number: usize) -> Result<(), AllocError> {
    text.put(b"/nix/store/")?;
    if let Some(letters) = letters {
        text.put(letters)?;
    }
    text.put_word(b"-n", number)
}

/// The bundle of a graph.
pub(crate) fn bundle(alloc: Global, shape: &Shape, names: &Names) -> Result<Vec<u8>, AllocError> {
    let room = shape.count.saturating_mul(shape.length.saturating_add(300));
    let mut text = Text::with_room(alloc, room)?;
    for number in 0..shape.count {
        let began = text.len();
        names.put_drv(&mut text, number)?;
        text.put(b" Derive([(\"out\",\"")?;
        names.put_output(&mut text, number)?;
        text.put(b"\",\"\",\"\")],[")?;
        let inputs = shape.inputs_of(alloc, number)?;
        put_inputs(alloc, &mut text, names, inputs.as_slice())?;
        text.put(b"],[],\"")?;
        put_rest(&mut text, shape, names, number, inputs.as_slice(), began)?;
    }
    Ok(text.into_vec())
}

/// Puts the inputs, ordered by their paths.
fn put_inputs(
    alloc: Global,
    text: &mut Text,
    names: &Names,
    inputs: &[usize],
) -> Result<(), AllocError> {
    let mut ordered = Vec::with_capacity(alloc, inputs.len())?;
    for input in inputs {
        let key = names.order.as_slice().get(*input).copied().unwrap_or(0);
        ordered.push((key, *input))?;
    }
    ordered.sort_unstable();
    let mut is_first = true;
    for (_, input) in ordered {
        text.put(if is_first {
            b"(\"".as_slice()
        } else {
            b",(\"".as_slice()
        })?;
        is_first = false;
        names.put_drv(text, input)?;
        text.put(b"\",[\"out\"])")?;
    }
    Ok(())
}

/// Puts the rest of a line from the platform on.
fn put_rest(
    text: &mut Text,
    shape: &Shape,
    names: &Names,
    number: usize,
    inputs: &[usize],
    began: usize,
) -> Result<(), AllocError> {
    let class = shape.class_of(number);
    text.put(class.system)?;
    text.put(b"\",\"/bin/sh\",[\"-c\",\"build\"],[")?;
    if shape.form == Form::Packages {
        put_outputs_variable(text, names, b"(\"buildInputs\",\"", inputs)?;
        text.put(PHASES)?;
    }
    text.put_word(b"(\"name\",\"n", number)?;
    text.put(b"\"),")?;
    if shape.form == Form::Packages {
        put_outputs_variable(text, names, b"(\"nativeBuildInputs\",\"", inputs)?;
    }
    text.put(b"(\"out\",\"")?;
    names.put_output(text, number)?;
    text.put(b"\"),")?;
    if shape.form == Form::Packages {
        put_package(text, number)?;
    }
    put_features(text, shape.form, class, number)?;
    text.put(b"(\"text\",\"")?;
    let length = text.len().saturating_sub(began).saturating_add(5);
    names.put_filler(text, number, shape.length.saturating_sub(length))?;
    text.put(b"\")])\n")
}

/// Puts the variable of the required features, where there are some.
fn put_features(
    text: &mut Text,
    form: Form,
    class: Class,
    number: usize,
) -> Result<(), AllocError> {
    if form == Form::Features {
        text.put_word(b"(\"requiredSystemFeatures\",\"f", number)?;
        return text.put(b"\"),");
    }
    if class.features.is_empty() {
        return Ok(());
    }
    text.put(b"(\"requiredSystemFeatures\",\"")?;
    text.put(class.features)?;
    text.put(b"\"),")
}

/// Puts a variable that has the outputs of the inputs, with spaces between them.
fn put_outputs_variable(
    text: &mut Text,
    names: &Names,
    head: &[u8],
    inputs: &[usize],
) -> Result<(), AllocError> {
    text.put(head)?;
    for input in inputs {
        names.put_output(text, *input)?;
        text.put(b" ")?;
    }
    text.put(b"\"),")
}

/// Variables of a package, of several lines.
const PHASES: &[u8] =
    b"(\"buildPhase\",\"runHook preBuild\\nmake -j$NIX_BUILD_CORES \\\"PREFIX=$out\\\" \\\\\\n  all\\nrunHook postBuild\\n\"),(\"builder\",\"/bin/sh\"),(\"configureFlags\",\"--prefix=/usr --disable-static --enable-shared --with-ssl\"),(\"depsBuildBuild\",\"\"),(\"doCheck\",\"1\"),(\"installPhase\",\"runHook preInstall\\nmake install \\\"DESTDIR=$out\\\"\\nrm -f \\\"$out\\\"/lib/*.la\\nrunHook postInstall\\n\"),";

/// Puts variables of a package that stand behind its output.
fn put_package(text: &mut Text, number: usize) -> Result<(), AllocError> {
    text.put(b"(\"outputs\",\"out\"),(\"patches\",\"\"),")?;
    text.put_word(b"(\"pname\",\"package-", number)?;
    text.put(b"\"),(\"preferLocalBuild\",\"\"),(\"propagatedBuildInputs\",\"\"),")?;
    text.put(b"(\"stdenv\",\"/nix/store/00000000000000000000000000000000-stdenv-linux\"),")?;
    text.put_word(
        b"(\"system\",\"x86_64-linux\"),(\"testFlags\",\"--seed=",
        number,
    )?;
    text.put(b"\"),")
}
