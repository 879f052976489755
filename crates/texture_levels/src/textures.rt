ghost use Rattle.std.specs.Prelude.{◌≡◌, ◌<◌, IsTrue, OnOk, OnErr};
ghost use Rattle.std.specs.FinMap.{empty, insert, remove};
ghost use Rattle.gl_numbers.specs.TextureParameters.{is_texture_parameter};
ghost use Rattle.texel_rules.specs.Levels.{level_count};
ghost use Rattle.texture_levels.specs.Texture.{new_texture};
ghost use Rattle.texture_levels.specs.Stored.{changed, is_complete_at, level_at, target_at};
ghost use Rattle.texture_levels.specs.Rules.{Answers, end_of, mipmap_refusal_at, parameter_at, parameter_refusal, rectangle, sub_image_refusal, target_refusal, with_level_of, with_mipmaps, with_parameter_of, with_target, word};

use crate::held::Held;
use crate::levels::is_same_layout;
use crate::parameters::value_of;
use gl_numbers::{Face, GlError, Handle, Memory, TexTarget, is_texture_parameter};
use std::alloc::Global;
use std::collections::BTreeMap;
use std::marker::Model;
use texel_rules::{Layout, LevelInfo};

/// The textures that a page made, seen as a finite map by handle.
#[derive(Drop)]
pub struct Textures {
    textures: BTreeMap<Handle, Held>,
    alloc: Global,
}

impl Model for Textures {
    ghost use Rattle.std.specs.FinMap.{from_entries};
    ghost use Rattle.texture_levels.specs.Stored.{Stored};
    ghost use Rattle.texture_levels.specs.Codes.{stored_code};

    ghost Value = { Stored };

    ghost coded = { stored_code };

    ghost view = { λ a. from_entries a.textures.entries };
}

#[tactic(auto, using(gl_numbers::proofs::Maps::of_maps))]
impl Textures {
    /// No texture. Takes no memory.
    pub fn new(alloc: Global) -> Textures
        ensures { result ≡ empty }
    {
        Textures {
            textures: BTreeMap::new(alloc),
            alloc,
        }
    }

    /// Adds the new texture `h`: no target, the parameters of a new texture and no level (OpenGL ES 2.0 section 3.7.12). Err
    /// where memory runs out, and then nothing changes.
    pub fn add(&mut self, h: Handle) -> Result<(), Memory>
        ensures ok { OnOk result (self.new ≡ insert self.old h new_texture) }
        ensures err { OnErr result (self.new ≡ self.old) }
    {
        let Ok(held) = Held::make(self.alloc) else {
            return Err(Memory);
        };
        match self.textures.insert(h, held) {
            Ok(_) => Ok(()),
            Err(_) => Err(Memory),
        }
    }

    /// Makes a texture one of this target (bindTexture, OpenGL ES 2.0 section 3.7.13). Operation where it took
    /// the other target before; then nothing changes.
    pub fn take_target(&mut self, h: Handle, target: TexTarget) -> Result<(), GlError>
        ensures refusal { Answers (target_refusal target (target_at self.old h)) result }
        ensures ok { OnOk result (self.new ≡ changed self.old h (with_target target)) }
        ensures err { OnErr result (self.new ≡ self.old) }
    {
        if let Some(taken) = self.target(h) {
            if taken.word() != target.word() {
                return Err(GlError::Operation);
            }
        }
        if let Some(held) = self.textures.get_mut(&h) {
            held.take_target(target);
        }
        Ok(())
    }

    /// Specifies a level, at most 11, of a face of a texture (texImage2D, OpenGL ES 2.0 section 3.7.1). Takes no memory.
    pub fn tex_image(&mut self, h: Handle, face: Face, level: u32, info: LevelInfo)
        requires { level < level_count }
        ensures { self.new ≡ changed self.old h (with_level_of face level info) }
    {
        if let Some(held) = self.textures.get_mut(&h) {
            held.set_level(face, level, info);
        }
    }

    /// Whether texels of this layout can be written into a level, at `place`: x, y, width and height in texels
    /// (texSubImage2D, OpenGL ES 2.0 section 3.7.2, WebGL 1.0 section 5.14.8). Value where one of these is negative,
    /// Operation where the level isn't there, Value where the rectangle isn't wholly inside it, Operation where its format
    /// or type is another.
    pub fn tex_sub_image(
        &self,
        h: Handle,
        face: Face,
        level: u32,
        place: [i32; 4],
        layout: Layout,
    ) -> Result<(), GlError>
        ensures { Answers (sub_image_refusal (rectangle place) layout (level_at self.now h face level)) result }
    {
        let (Some(right), Some(top)) = (end(place[0], place[2]), end(place[1], place[3])) else {
            return Err(GlError::Value);
        };
        let Some(info) = self.level(h, face, level) else {
            return Err(GlError::Operation);
        };
        if right > info.width || top > info.height {
            return Err(GlError::Value);
        }
        if !is_same_layout(layout, info.layout) {
            return Err(GlError::Operation);
        }
        Ok(())
    }

    /// Gives a parameter of a texture a value, both GL words (texParameteri, OpenGL ES 2.0 section 3.7.4).
    /// Enum where textures have no such parameter or the parameter no such value; then nothing changes.
    pub fn tex_parameter(&mut self, h: Handle, pname: u32, value: i32) -> Result<(), GlError>
        ensures refusal { Answers (parameter_refusal pname value) result }
        ensures ok { OnOk result (self.new ≡ changed self.old h (with_parameter_of pname (word value))) }
        ensures err { OnErr result (self.new ≡ self.old) }
    {
        if !is_texture_parameter(pname) {
            return Err(GlError::Enum);
        }
        let Some(value) = value_of(pname, value) else {
            return Err(GlError::Enum);
        };
        if let Some(held) = self.textures.get_mut(&h) {
            held.set_parameter(pname, value);
        }
        Ok(())
    }

    /// Builds the levels of a texture from its base to 1x1, on each face (generateMipmap, OpenGL ES 2.0
    /// section 3.7.11). Operation where a base is absent or has no texels, a side of it is no power of two, or the bases of
    /// a cube map aren't squares of one size, format and type; then nothing changes.
    pub fn generate_mipmap(&mut self, h: Handle) -> Result<(), GlError>
        ensures refusal { Answers (mipmap_refusal_at self.old h) result }
        ensures ok { OnOk result (self.new ≡ changed self.old h with_mipmaps) }
        ensures err { OnErr result (self.new ≡ self.old) }
    {
        let Ok(()) = self.may_build(h) else {
            return Err(GlError::Operation);
        };
        if let Some(held) = self.textures.get_mut(&h) {
            held.build();
        }
        Ok(())
    }

    /// Whether the levels of a texture can be built.
    fn may_build(&self, h: Handle) -> Result<(), GlError>
        ensures { Answers (mipmap_refusal_at self.now h) result }
    {
        match self.textures.get(&h) {
            Some(held) => held.may_build(),
            None => Err(GlError::Operation),
        }
    }

    /// A level of a face of a texture; None where it was never specified, or the texture isn't there.
    pub fn level(&self, h: Handle, face: Face, level: u32) -> Option<LevelInfo>
        ensures { result ≡ level_at self.now h face level }
    {
        match self.textures.get(&h) {
            Some(held) => held.level(face, level),
            None => None,
        }
    }

    /// A parameter, 0x2800 to 0x2803, of a texture, as a GL word (getTexParameter, OpenGL ES 2.0 section 6.1.3); 0 where
    /// the texture isn't there.
    pub fn parameter(&self, h: Handle, pname: u32) -> u32
        requires { IsTrue (is_texture_parameter pname) }
        ensures { result ≡ parameter_at self.now h pname }
    {
        match self.textures.get(&h) {
            Some(held) => held.parameter(pname),
            None => 0,
        }
    }

    /// The target that a texture took; None exactly where it took none, or isn't there.
    pub fn target(&self, h: Handle) -> Option<TexTarget>
        ensures { result ≡ target_at self.now h }
    {
        match self.textures.get(&h) {
            Some(held) => held.target(),
            None => None,
        }
    }

    /// Whether a texture is complete (OpenGL ES 2.0 sections 3.7.10 and 3.8.2); one that isn't there isn't.
    pub fn complete(&self, h: Handle) -> bool
        ensures { result ≡ is_complete_at self.now h }
    {
        match self.textures.get(&h) {
            Some(held) => held.is_complete(),
            None => false,
        }
    }

    /// Forgets the texture `h` (deleteTexture, OpenGL ES 2.0 section 3.7.13). Nothing changes where it isn't there.
    pub fn gone(&mut self, h: Handle)
        ensures { self.new ≡ remove self.old h }
    {
        let _ = self.textures.remove(&h);
    }
}

/// Where a part that begins `at` and is `len` long ends, if neither is negative.
fn end(at: i32, len: i32) -> Option<u32>
    ensures { result ≡ end_of at len }
{
    match (u32::try_from(at), u32::try_from(len)) {
        (Ok(at), Ok(len)) => Some(at + len),
        _ => None,
    }
}
