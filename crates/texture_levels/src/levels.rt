ghost use Rattle.std.specs.Prelude.{◌≡◌, ◌<◌, IfOk, None, replicate};
ghost use Rattle.texel_rules.specs.Levels.{each_face, faces_of, is_level, is_reached, is_same_layout, level_count, level_of, level_side};
ghost use Rattle.texel_rules.specs.TextureComplete.{are_bases, are_levels};
ghost use Rattle.texture_levels.specs.Texture.{built, built_below, face_number, levels_of, place, slot_count, with_level};

use gl_numbers::{Face, Memory, TexTarget};
use std::alloc::Global;
use std::marker::Model;
use texel_rules::{LEVEL_COUNT, Layout, LevelInfo};

/// How many slots a texture has: the levels of seven faces.
const SLOTS: usize = 84;

/// The levels of a texture: those of each face in turn, and of a face from the base on. A level that was never specified
/// is an empty slot.
#[derive(Drop)]
pub(crate) struct Levels {
    slots: Vec<Option<LevelInfo>>,
}

impl Model for Levels {
    ghost use Rattle.std.specs.Prelude.{◌≡◌, length};
    ghost use Rattle.texture_levels.specs.Texture.{Slots};
    ghost use Rattle.texture_levels.specs.Codes.{slots_code};

    ghost Value = { Slots };

    ghost coded = { slots_code };

    ghost view = { λ a. a.slots.items };

    ghost invariant = { λ a. length a.slots.items ≡ 84 };
}

impl Levels {
    /// No level at all.
    pub(crate) fn make(alloc: Global) -> Result<Levels, Memory>
        ensures { IfOk result (λ l. l ≡ replicate slot_count None) }
    {
        let Ok(mut slots) = Vec::with_capacity(alloc, SLOTS) else {
            return Err(Memory);
        };
        while slots.len() < SLOTS {
            let Ok(()) = slots.push(None) else {
                return Err(Memory);
            };
        }
        Ok(Levels { slots })
    }

    /// A level of a face, if it was specified.
    pub(crate) fn get(&self, face: Face, level: u32) -> Option<LevelInfo>
        ensures { result ≡ levels_of self.now face level }
    {
        if level < LEVEL_COUNT {
            self.slots[place(face, level)]
        } else {
            None
        }
    }

    /// Specifies a level of a face.
    pub(crate) fn set(&mut self, face: Face, level: u32, info: LevelInfo)
        requires { level < level_count }
        ensures { self.new ≡ with_level face level info self.old }
    {
        self.slots[place(face, level)] = Some(info);
    }

    /// Builds the levels of a face from its base to 1x1.
    #[tactic(auto, using(crate::proofs::Building::of_building))]
    pub(crate) fn build(&mut self, face: Face, base: LevelInfo)
        ensures { self.new ≡ built_below level_count face base self.old }
    {
        for level in 0..LEVEL_COUNT {
            if level > 0 && is_reached(base, level) {
                self.set(face, level, level_of(base, level));
            }
        }
    }

    /// Builds the levels of each face from the base to 1x1.
    pub(crate) fn build_all(&mut self, target: TexTarget, base: LevelInfo)
        ensures { self.new ≡ built (faces_of target) base self.old }
    {
        match target {
            TexTarget::Texture2d => self.build(Face::Texture2d, base),
            TexTarget::CubeMap => {
                self.build(Face::PositiveX, base);
                self.build(Face::NegativeX, base);
                self.build(Face::PositiveY, base);
                self.build(Face::NegativeY, base);
                self.build(Face::PositiveZ, base);
                self.build(Face::NegativeZ, base);
            }
        }
    }

    /// Whether a level of a face is there, with this size, format and type.
    fn has(&self, face: Face, level: u32, wanted: LevelInfo) -> bool
        ensures { result ≡ is_level wanted (levels_of self.now face level) }
    {
        match self.get(face, level) {
            Some(info) => {
                info.width == wanted.width
                    && info.height == wanted.height
                    && is_same_layout(info.layout, wanted.layout)
            }
            None => false,
        }
    }

    /// Whether the bases are there, with texels, one size, format and type, and square on a cube map.
    pub(crate) fn has_bases(&self, target: TexTarget, base: LevelInfo) -> bool
        ensures { result ≡ are_bases target (levels_of self.now) base }
    {
        if base.width == 0 || base.height == 0 {
            return false;
        }
        match target {
            TexTarget::Texture2d => self.has(Face::Texture2d, 0, base),
            TexTarget::CubeMap => {
                base.width == base.height
                    && self.has(Face::PositiveX, 0, base)
                    && self.has(Face::NegativeX, 0, base)
                    && self.has(Face::PositiveY, 0, base)
                    && self.has(Face::NegativeY, 0, base)
                    && self.has(Face::PositiveZ, 0, base)
                    && self.has(Face::NegativeZ, 0, base)
            }
        }
    }

    /// Whether each level of a face from the base to 1x1 is there, each side half of the one before.
    #[tactic(auto, using(crate::proofs::Building::of_testing))]
    fn has_levels(&self, face: Face, base: LevelInfo) -> bool
        ensures { result ≡ are_levels (levels_of self.now face) base }
    {
        for level in 0..LEVEL_COUNT {
            if is_reached(base, level) && !self.has(face, level, level_of(base, level)) {
                return false;
            }
        }
        true
    }

    /// Whether each level from the base to 1x1 is there on each face.
    pub(crate) fn has_all_levels(&self, target: TexTarget, base: LevelInfo) -> bool
        ensures { result ≡ each_face (faces_of target) (λ face. are_levels (levels_of self.now face) base) }
    {
        match target {
            TexTarget::Texture2d => self.has_levels(Face::Texture2d, base),
            TexTarget::CubeMap => {
                self.has_levels(Face::PositiveX, base)
                    && self.has_levels(Face::NegativeX, base)
                    && self.has_levels(Face::PositiveY, base)
                    && self.has_levels(Face::NegativeY, base)
                    && self.has_levels(Face::PositiveZ, base)
                    && self.has_levels(Face::NegativeZ, base)
            }
        }
    }
}

/// The number of a face.
fn face_number(face: Face) -> usize
    ensures value { result ≡ face_number face }
    ensures less { result < 7 }
{
    match face {
        Face::Texture2d => 0,
        Face::PositiveX => 1,
        Face::NegativeX => 2,
        Face::PositiveY => 3,
        Face::NegativeY => 4,
        Face::PositiveZ => 5,
        Face::NegativeZ => 6,
    }
}

/// The place of the slot of a level.
fn place(face: Face, level: u32) -> usize
    requires { level < level_count }
    ensures value { result ≡ place face level }
    ensures less { result < 84 }
{
    face_number(face) * 12 + level as usize
}

/// What a level is, by its base: each side halved `level` times, and at least 1.
fn level_of(base: LevelInfo, level: u32) -> LevelInfo
    requires { level < level_count }
    ensures { result ≡ level_of base level }
{
    LevelInfo {
        width: level_side(base.width, level),
        height: level_side(base.height, level),
        layout: base.layout,
    }
}

/// The side of a level.
fn level_side(base: u32, level: u32) -> u32
    requires { level < level_count }
    ensures { result ≡ level_side base level }
{
    (base >> level).max(1)
}

/// Whether a level is one of those from the base to 1x1.
fn is_reached(base: LevelInfo, level: u32) -> bool
    requires { level < level_count }
    ensures { result ≡ is_reached base level }
{
    (1u32 << level) <= base.width.max(base.height)
}

/// Whether two layouts have one format and one type.
pub(crate) fn is_same_layout(a: Layout, b: Layout) -> bool
    ensures { result ≡ is_same_layout a b }
{
    a.format.word() == b.format.word() && a.kind.word() == b.kind.word()
}
