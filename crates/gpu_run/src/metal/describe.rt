//! What a description asks for, as the device tells it.

ghost use Rattle.std.specs.Prelude.{◌≡◌, Err, MatchResult, string_bytes};
ghost use Rattle.gpu_values.specs.Refusal.{refusal_of};
ghost use Rattle.gpu_run.specs.MetalDescribe.{described, described_piece, AsksFor, Describes};
ghost use Rattle.gpu_run.specs.declared.metal.describe.Wanted.TheVariants.{Piece};

use crate::metal::command::Request;
use gpu_device::metal::{MetalDevice, TextureDescriptor};
use gpu_metal::AllocationCreateDesc;
use gpu_values::{MemoryLocation, Result};

/// What an allocation is asked for, its name aside. Sizes and alignments are bytes.
#[derive(Clone, Copy)]
pub enum Wanted {
    /// A piece of this size, at a multiple of this alignment.
    Piece(u64, u64, MemoryLocation),
    /// The piece of a buffer of this length: the device tells its size and alignment.
    Buffer(u64, MemoryLocation),
    /// The piece of an acceleration structure of this size: the device tells its size and alignment.
    AccelerationStructure(u64, MemoryLocation),
    /// A texture's piece: the device tells its size and alignment, and its storage mode where it lies.
    Texture(TextureDescriptor),
}

/// What a piece is asked for, its name aside.
pub(crate) fn wanted_piece(request: &Request) -> Wanted
    ensures { result ≡ Piece request.now.size request.now.alignment request.now.location }
{
    Wanted::Piece(request.size, request.alignment, request.location)
}

/// The description of a piece.
pub(crate) fn describe_piece(request: &Request) -> AllocationCreateDesc<'_>
    ensures { AsksFor (described_piece request.now) (string_bytes request.now.name) result }
{
    AllocationCreateDesc {
        name: request.name.as_str(),
        location: request.location,
        size: request.size,
        alignment: request.alignment,
    }
}

/// The description of what is wanted, under this name. `Internal`, with the mode's value, for a texture whose storage mode is
/// `Other`.
pub(crate) fn describe<'a, D: MetalDevice>(
    device: &D,
    wanted: Wanted,
    name: &'a str,
) -> Result<AllocationCreateDesc<'a>>
    ensures { MatchResult result
        (λ d. Describes (described (D.properties device.now) wanted) name.now d)
        (λ e. described (D.properties device.now) wanted ≡ Err (refusal_of e)) }
{
    match wanted {
        Wanted::Piece(size, alignment, location) => Ok(AllocationCreateDesc {
            name,
            location,
            size,
            alignment,
        }),
        Wanted::Buffer(length, location) => Ok(AllocationCreateDesc::buffer(
            device, name, length, location,
        )),
        Wanted::AccelerationStructure(size, location) => Ok(
            AllocationCreateDesc::acceleration_structure_with_size(device, name, size, location),
        ),
        Wanted::Texture(texture) => AllocationCreateDesc::texture(device, name, &texture),
    }
}
