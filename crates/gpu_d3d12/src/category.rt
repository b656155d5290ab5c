//! Of which category a resource is.

ghost use Rattle.std.specs.Prelude.{◌≡◌};

use gpu_device::d3d12::{ResourceDesc, ResourceDimension};

/// Textures with this flag may be render targets (`D3D12_RESOURCE_FLAG_ALLOW_RENDER_TARGET`).
const ALLOW_RENDER_TARGET: u32 = 1;

/// Textures with this flag may be depth stencils (`D3D12_RESOURCE_FLAG_ALLOW_DEPTH_STENCIL`).
const ALLOW_DEPTH_STENCIL: u32 = 2;

/// Of which category a resource is: at resource heap tier 1 a heap holds resources of one category alone. At later tiers
/// it doesn't matter.
#[derive(Clone, Copy, Debug, PartialEq, Eq)]
pub enum ResourceCategory {
    /// A buffer.
    Buffer,
    /// A texture that may be a render target or a depth stencil.
    RtvDsvTexture,
    /// Any other texture.
    OtherTexture,
}

/// The category by the description's dimension and flags.
impl From<&ResourceDesc> for ResourceCategory {
    ghost use Rattle.gpu_d3d12.specs.Category.{category_of};

    ghost from_gives = { λ desc category. category ≡ category_of desc.now };

    fn from(desc: &ResourceDesc) -> Self {
        if desc.dimension == ResourceDimension::Buffer {
            ResourceCategory::Buffer
        } else if desc.flags & ALLOW_RENDER_TARGET != 0 || desc.flags & ALLOW_DEPTH_STENCIL != 0 {
            ResourceCategory::RtvDsvTexture
        } else {
            ResourceCategory::OtherTexture
        }
    }
}
