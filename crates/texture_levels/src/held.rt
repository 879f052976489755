ghost use Rattle.std.specs.Prelude.{◌≡◌, ◌<◌, IfOk, IsTrue};
ghost use Rattle.gl_numbers.specs.TextureParameters.{is_texture_parameter};
ghost use Rattle.texel_rules.specs.Levels.{level_count};
ghost use Rattle.texture_levels.specs.Texture.{is_complete, levels_of, new_texture};
ghost use Rattle.texture_levels.specs.Rules.{Answers, base_by, mipmap_refusal, parameter, with_level_of, with_mipmaps, with_parameter_of, with_target};

use crate::levels::Levels;
use crate::parameters::Words;
use gl_numbers::{Face, GlError, Memory, TexTarget};
use std::alloc::Global;
use std::marker::Model;
use texel_rules::LevelInfo;

/// One texture.
#[derive(Drop)]
pub(crate) struct Held {
    target: Option<TexTarget>,
    words: Words,
    levels: Levels,
}

impl Model for Held {
    ghost use Rattle.texture_levels.specs.Texture.{Texture};
    ghost use Rattle.texture_levels.specs.Codes.{texture_code};

    ghost Value = { Texture };

    ghost coded = { texture_code };

    ghost view = { λ a. record { target = a.target; parameters = a.words; slots = a.levels } };
}

impl Held {
    /// A new texture: no target, the first parameters and no level. Err where memory runs out.
    pub(crate) fn make(alloc: Global) -> Result<Held, Memory>
        ensures { IfOk result (λ t. t ≡ new_texture) }
    {
        let Ok(levels) = Levels::make(alloc) else {
            return Err(Memory);
        };
        Ok(Held {
            target: None,
            words: Words::new(),
            levels,
        })
    }

    /// The target that it took.
    pub(crate) fn target(&self) -> Option<TexTarget>
        ensures { result ≡ self.now.target }
    {
        self.target
    }

    /// Gives it a target.
    pub(crate) fn take_target(&mut self, target: TexTarget)
        ensures { self.new ≡ with_target target self.old }
    {
        self.target = Some(target);
    }

    /// A level of a face, if it was specified.
    pub(crate) fn level(&self, face: Face, level: u32) -> Option<LevelInfo>
        ensures { result ≡ levels_of self.now.slots face level }
    {
        self.levels.get(face, level)
    }

    /// Specifies a level of a face.
    pub(crate) fn set_level(&mut self, face: Face, level: u32, info: LevelInfo)
        requires { level < level_count }
        ensures { self.new ≡ with_level_of face level info self.old }
    {
        self.levels.set(face, level, info);
    }

    /// A parameter, by its word.
    pub(crate) fn parameter(&self, name: u32) -> u32
        requires { IsTrue (is_texture_parameter name) }
        ensures { result ≡ parameter name self.now.parameters }
    {
        self.words.get(name)
    }

    /// Gives a parameter a value.
    pub(crate) fn set_parameter(&mut self, name: u32, value: u32)
        requires { IsTrue (is_texture_parameter name) }
        ensures { self.new ≡ with_parameter_of name value self.old }
    {
        self.words.set(name, value);
    }

    /// The base of the first face, if there is a target.
    fn base(&self) -> Option<LevelInfo>
        ensures { result ≡ base_by self.now.target self.now.slots }
    {
        match self.target {
            Some(TexTarget::Texture2d) => self.level(Face::Texture2d, 0),
            Some(TexTarget::CubeMap) => self.level(Face::PositiveX, 0),
            None => None,
        }
    }

    /// Whether its levels can be built: Operation where a base is absent or has no texels, a side of it is no power of
    /// two, or the bases of a cube map aren't equal squares.
    pub(crate) fn may_build(&self) -> Result<(), GlError>
        ensures { Answers (mipmap_refusal self.now.target self.now.slots) result }
    {
        let (Some(target), Some(base)) = (self.target, self.base()) else {
            return Err(GlError::Operation);
        };
        if base.width.is_power_of_two()
            && base.height.is_power_of_two()
            && self.levels.has_bases(target, base)
        {
            Ok(())
        } else {
            Err(GlError::Operation)
        }
    }

    /// Builds the levels of each face from the base.
    pub(crate) fn build(&mut self)
        ensures { self.new ≡ with_mipmaps self.old }
    {
        if let (Some(target), Some(base)) = (self.target, self.base()) {
            self.levels.build_all(target, base);
        }
    }

    /// Whether it is complete.
    pub(crate) fn is_complete(&self) -> bool
        ensures { result ≡ is_complete self.now }
    {
        let (Some(target), Some(base)) = (self.target, self.base()) else {
            return false;
        };
        self.levels.has_bases(target, base)
            && self.words.may_sample(base)
            && (!self.words.has_mipmaps() || self.levels.has_all_levels(target, base))
    }
}
