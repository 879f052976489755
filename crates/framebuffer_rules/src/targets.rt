ghost use Rattle.std.specs.Prelude.{◌≡◌, IsSome, IsTrue, OnOk, OnErr};
ghost use Rattle.std.specs.FinMap.{get, insert};
ghost use Rattle.gl_numbers.specs.declared.kinds.Kind.TheVariants.{Framebuffer, Renderbuffer};
ghost use Rattle.framebuffer_rules.specs.Targets.{Answers, added, at_point, image_at, info_at, is_target, no_targets, put_at, side_of, storage_refusal, with_image, with_storage, without};

use crate::{Image, ImageInfo};
use gl_numbers::{
    GlError, Handle, IMAGE_SIDE_MAX, Kind, Memory, Point, RGBA4, is_renderbuffer_format,
};
use std::alloc::Global;
use std::collections::BTreeMap;
use std::marker::Model;

/// What a renderbuffer stores: its format as a GL word, and its sides in texels.
#[derive(Clone, Copy)]
pub(crate) struct Storage {
    format: u32,
    width: u32,
    height: u32,
}

/// What is attached to a framebuffer, by point.
#[derive(Clone, Copy)]
pub(crate) struct Attachments {
    color: Option<Image>,
    depth: Option<Image>,
    stencil: Option<Image>,
    depth_stencil: Option<Image>,
}

impl Attachments {
    /// What is attached at a point.
    fn get(&self, point: Point) -> Option<Image>
        ensures { result ≡ at_point point self.now }
    {
        match point {
            Point::Color => self.color,
            Point::Depth => self.depth,
            Point::Stencil => self.stencil,
            Point::DepthStencil => self.depth_stencil,
        }
    }

    /// Attaches an image, or none, at a point.
    fn put(&mut self, point: Point, image: Option<Image>)
        ensures { self.new ≡ put_at point image self.old }
    {
        match point {
            Point::Color => self.color = image,
            Point::Depth => self.depth = image,
            Point::Stencil => self.stencil = image,
            Point::DepthStencil => self.depth_stencil = image,
        }
    }
}

/// The renderbuffers and framebuffers that a page made, seen as two finite maps by handle. Handles are those of the
/// page, over all kinds of object.
#[derive(Drop)]
pub struct Targets {
    renderbuffers: BTreeMap<Handle, Storage>,
    framebuffers: BTreeMap<Handle, Attachments>,
}

impl Model for Targets {
    ghost use Rattle.framebuffer_rules.specs.Targets.{Stored, stored_in};
    ghost use Rattle.framebuffer_rules.specs.Codes.{stored_code};

    ghost Value = { Stored };

    ghost coded = { stored_code };

    ghost view = { λ a. stored_in a.renderbuffers.entries a.framebuffers.entries };
}

#[tactic(auto, using(gl_numbers::proofs::Maps::of_maps))]
impl Targets {
    /// No renderbuffer and no framebuffer. Takes no memory.
    pub fn new(alloc: Global) -> Targets
        ensures { result ≡ no_targets }
    {
        Targets {
            renderbuffers: BTreeMap::new(alloc),
            framebuffers: BTreeMap::new(alloc),
        }
    }

    /// Adds the new object `h`: a renderbuffer of format RGBA4 whose sides are 0, or a framebuffer to which nothing is
    /// attached. An object of another kind is no target: nothing changes, and no memory is taken. Err where memory runs out,
    /// and then nothing changes either.
    pub fn add(&mut self, h: Handle, kind: Kind) -> Result<(), Memory>
        ensures ok { OnOk result (self.new ≡ added kind h self.old) }
        ensures err { OnErr result (self.new ≡ self.old) }
        ensures memory { OnErr result (IsTrue (is_target kind)) }
    {
        match kind {
            Kind::Renderbuffer => self.add_renderbuffer(h),
            Kind::Framebuffer => self.add_framebuffer(h),
            Kind::Buffer | Kind::Texture | Kind::Shader | Kind::Program => Ok(()),
        }
    }

    /// Adds a renderbuffer.
    fn add_renderbuffer(&mut self, h: Handle) -> Result<(), Memory>
        ensures ok { OnOk result (self.new ≡ added Renderbuffer h self.old) }
        ensures err { OnErr result (self.new ≡ self.old) }
    {
        let storage = Storage {
            format: RGBA4,
            width: 0,
            height: 0,
        };
        match self.renderbuffers.insert(h, storage) {
            Ok(_) => Ok(()),
            Err(_) => Err(Memory),
        }
    }

    /// Adds a framebuffer.
    fn add_framebuffer(&mut self, h: Handle) -> Result<(), Memory>
        ensures ok { OnOk result (self.new ≡ added Framebuffer h self.old) }
        ensures err { OnErr result (self.new ≡ self.old) }
    {
        let images = Attachments {
            color: None,
            depth: None,
            stencil: None,
            depth_stencil: None,
        };
        match self.framebuffers.insert(h, images) {
            Ok(_) => Ok(()),
            Err(_) => Err(Memory),
        }
    }

    /// Gives a renderbuffer that is there this format, a GL word, and these sides in texels (renderbufferStorage, OpenGL
    /// ES 2.0 section 4.4.3). Enum where the format is none of a renderbuffer's, Value where a side is negative or above
    /// 2,048; then nothing changes.
    pub fn storage(
        &mut self,
        h: Handle,
        format: u32,
        width: i32,
        height: i32,
    ) -> Result<(), GlError>
        requires { IsSome (get self.old.renderbuffers h) }
        ensures refusal { Answers (storage_refusal format width height) result }
        ensures ok { OnOk result (self.new ≡ with_storage h format width height self.old) }
        ensures err { OnErr result (self.new ≡ self.old) }
    {
        if !is_renderbuffer_format(format) {
            return Err(GlError::Enum);
        }
        let (Some(width), Some(height)) = (side(width), side(height)) else {
            return Err(GlError::Value);
        };
        self.store(
            h,
            Storage {
                format,
                width,
                height,
            },
        );
        Ok(())
    }

    /// Puts other storage in the place of a renderbuffer's.
    fn store(&mut self, h: Handle, storage: Storage)
        requires { IsSome (get self.old.renderbuffers h) }
        ensures { self.new ≡ record self.old { renderbuffers = insert self.old.renderbuffers h storage } }
    {
        if let Some(place) = self.renderbuffers.get_mut(&h) {
            *place = storage;
        }
    }

    /// Attaches an image, or none, to a framebuffer at a point (framebufferTexture2D and framebufferRenderbuffer, OpenGL ES
    /// 2.0 section 4.4.3). Nothing changes where the framebuffer isn't there. Takes no memory.
    pub fn attach(&mut self, fb: Handle, point: Point, image: Option<Image>)
        ensures { self.new ≡ with_image fb point image self.old }
    {
        if let Some(images) = self.framebuffers.get_mut(&fb) {
            images.put(point, image);
        }
    }

    /// What is attached to a framebuffer at a point; None also where the framebuffer isn't there.
    pub fn attached(&self, fb: Handle, point: Point) -> Option<Image>
        ensures { result ≡ image_at self.now fb point }
    {
        match self.framebuffers.get(&fb) {
            Some(images) => images.get(point),
            None => None,
        }
    }

    /// A renderbuffer as an image, with the format that the page gave it: RGBA4 and sides of 0 before its first storage.
    /// None exactly where there is no renderbuffer of this handle.
    pub fn renderbuffer(&self, h: Handle) -> Option<ImageInfo>
        ensures { result ≡ info_at self.now h }
    {
        match self.renderbuffers.get(&h) {
            Some(storage) => Some(ImageInfo {
                texture: false,
                width: storage.width,
                height: storage.height,
                format: storage.format,
                kind: 0,
            }),
            None => None,
        }
    }

    /// Forgets the object `h`; a framebuffer lets go of what is attached to it (deleteRenderbuffer and deleteFramebuffer,
    /// OpenGL ES 2.0 sections 4.4.1 and 4.4.3). Nothing changes where it isn't there.
    pub fn gone(&mut self, h: Handle)
        ensures { self.new ≡ without h self.old }
    {
        let _ = self.renderbuffers.remove(&h);
        let _ = self.framebuffers.remove(&h);
    }
}

/// A side in texels, if it is from 0 to 2,048.
fn side(z: i32) -> Option<u32>
    ensures { result ≡ side_of z }
{
    match u32::try_from(z) {
        Ok(n) if n <= IMAGE_SIDE_MAX => Some(n),
        _ => None,
    }
}
