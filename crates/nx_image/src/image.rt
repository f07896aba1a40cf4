ghost use Rattle.std.specs.Prelude.{◌≡◌, IfOk};
ghost use Rattle.nx_image.specs.Image.{IsImage};
ghost use Rattle.nx_image.specs.Bytes.{bytes_of};

use crate::bytes::image_bytes;
use crate::layout::Layout;
use nx_base::{Build, Bytes, OutOfMemory};
use nx_config::Limits;
use nx_gate::Gates;
use nx_ram::ProgImage;
use std::alloc::Global;
use std::marker::Model;

/// An image: programs that are laid out for a build, with the gates of their calls.
#[derive(Drop)]
pub struct Image {
    layout: Layout,
    programs: Vec<ProgImage>,
    gates: Gates,
}

impl Model for Image {
    ghost use Rattle.nx_image.specs.Image.{Contents, IsImage};

    ghost Value = { Contents };

    ghost view = { λ i. record { layout = i.layout; programs = i.programs.items; gates = i.gates } };

    ghost invariant = { λ i. IsImage (record { layout = i.layout; programs = i.programs.items; gates = i.gates }) };
}

impl Image {
    /// An image of programs that stand where the layout says.
    pub fn new(layout: Layout, programs: Vec<ProgImage>, gates: Gates) -> Image
        requires { IsImage (record { layout = layout; programs = programs.items; gates = gates }) }
        ensures { result ≡ record { layout = layout; programs = programs.items; gates = gates } }
    {
        Image {
            layout,
            programs,
            gates,
        }
    }

    /// The programs, in the order of the words.
    pub fn programs(&self) -> &[ProgImage]
        ensures value { result.now ≡ self.now.programs }
        ensures hold { IsImage self.now }
    {
        self.programs.as_slice()
    }

    /// The gates of the calls that programs make.
    pub fn gates(&self) -> &Gates
        ensures { result.now ≡ self.now.gates }
    {
        &self.gates
    }

    /// The memory configuration.
    pub fn build(&self) -> Build
        ensures { result ≡ self.now.layout.build }
    {
        self.layout.build
    }

    /// The limits for which it was laid out.
    pub fn limits(&self) -> Limits
        ensures { result ≡ self.now.layout.limits }
    {
        self.layout.limits
    }

    /// Its programs and gates, without a copy.
    pub fn into_parts(self) -> (Vec<ProgImage>, Gates)
        ensures programs { result.0.items ≡ self.programs }
        ensures gates { result.1 ≡ self.gates }
        ensures hold { IsImage self }
    {
        let Image {
            programs,
            gates,
            ..
        } = self;
        (programs, gates)
    }

    /// Its bytes.
    pub fn bytes(&self, alloc: Global) -> Result<Bytes, OutOfMemory>
        ensures { IfOk result (λ bytes. bytes ≡ bytes_of self.now) }
    {
        image_bytes(
            alloc,
            &self.layout,
            self.gates.as_slice(),
            self.programs.as_slice(),
        )
    }
}
