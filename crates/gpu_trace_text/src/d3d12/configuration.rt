//! The configuration of a DirectX 12 trace.

ghost use Rattle.std.specs.Prelude.{◌≡◌, IfOk, OnErr, Some, None, true, false, []};
ghost use Rattle.std.specs.FinMap.{empty};
ghost use Rattle.gpu_d3d12.specs.DeviceVersion.{device_of};
ghost use Rattle.gpu_device.specs.D3D12History.{scripted};
ghost use Rattle.gpu_sim_d3d12.specs.Simulation.{properties_of, held_of, plan_of, refused_of, history_of};
ghost use Rattle.gpu_trace_text.specs.D3D12Configuration.{nothing_configured, configured_by, tier_by, plan_by, version_by, sizes_by, by_version};

use crate::d3d12::setting::{Setting, Version};
use crate::device::setting;
use crate::device::setting::sizes_of;
use gpu_d3d12::ID3D12DeviceVersion;
use gpu_device::d3d12::ResourceHeapTier;
use gpu_sim_base::Refusal;
use gpu_sim_d3d12::SimD3D12;
use gpu_values::AllocationSizes;
use std::alloc::{AllocError, Global};
use std::marker::Model;

/// The simulated device and the block sizes that the configuration lines describe.
#[derive(Drop)]
pub struct Configuration {
    tier: Option<Result<ResourceHeapTier, i32>>,
    version: Option<Version>,
    sizes: Option<AllocationSizes>,
    refusals: Vec<(u64, Refusal)>,
}

impl Model for Configuration {
    ghost use Rattle.gpu_trace_text.specs.D3D12Configuration.{Configured};

    ghost Value = { Configured };

    ghost view = { λ c. record {
      tier = c.tier;
      version = c.version;
      sizes = c.sizes;
      refusals =
          c.refusals.items;
    } };
}

/// A device by this interface.
fn by_version(version: Version, device: SimD3D12) -> ID3D12DeviceVersion<SimD3D12>
    ensures { result ≡ by_version version device }
{
    match version {
        Version::Device => ID3D12DeviceVersion::Device(device),
        Version::Device10 => ID3D12DeviceVersion::Device10(device),
        Version::Device12 => ID3D12DeviceVersion::Device12(device),
    }
}

impl Configuration {
    /// Nothing is configured.
    pub fn new(alloc: Global) -> Configuration
        ensures { result ≡ nothing_configured }
    {
        Configuration {
            tier: None,
            version: None,
            sizes: None,
            refusals: Vec::new(alloc),
        }
    }

    /// Sets what a line says. Answers whether it could: all but refusals are set once. Want of memory changes nothing.
    pub fn set(&mut self, setting: &Setting) -> Result<bool, AllocError>
        ensures set { IfOk result (λ set. set ≡ true
            → configured_by self.old setting.now ≡ Some self.new) }
        ensures not_set { IfOk result (λ set. set ≡ false
            → (configured_by self.old setting.now ≡ None) × (self.new ≡ self.old)) }
        ensures refused { OnErr result (self.new ≡ self.old) }
    {
        match *setting {
            Setting::Tier(tier) => match self.tier {
                Some(_) => return Ok(false),
                None => self.tier = Some(tier),
            },
            Setting::Interface(version) => match self.version {
                Some(_) => return Ok(false),
                None => self.version = Some(version),
            },
            Setting::Shared(
                setting::Setting::Sizes {
                    device,
                    host,
                    max_device,
                    max_host,
                },
            ) => match self.sizes {
                Some(_) => return Ok(false),
                None => self.sizes = Some(sizes_of(device, host, max_device, max_host)),
            },
            Setting::Shared(setting::Setting::Refuse { question, refusal }) => {
                self.refusals.push((question, refusal))?
            }
            Setting::Shared(_) => return Ok(false),
        }
        Ok(true)
    }

    /// The sizes of blocks.
    pub fn sizes(&self) -> AllocationSizes
        ensures { result ≡ sizes_by self.now }
    {
        match self.sizes {
            Some(sizes) => sizes,
            None => AllocationSizes::default(),
        }
    }

    /// The device by its newest interface.
    pub fn device(self, alloc: Global) -> ID3D12DeviceVersion<SimD3D12>
        ensures interface { result ≡ by_version (version_by self) (device_of result) }
        ensures tier { (properties_of (device_of result)).tier ≡ tier_by self }
        ensures plan { plan_of (device_of result) ≡ plan_by self }
        ensures held { held_of (device_of result) ≡ empty }
        ensures refused { refused_of (device_of result) ≡ 0 }
        ensures history { history_of (device_of result) ≡ scripted self.refusals }
    {
        let Configuration {
            tier,
            version,
            sizes: _,
            refusals,
        } = self;
        let tier = tier.unwrap_or(Ok(ResourceHeapTier::Tier2));
        let version = version.unwrap_or(Version::Device12);
        by_version(version, SimD3D12::new(alloc, tier, refusals))
    }
}
