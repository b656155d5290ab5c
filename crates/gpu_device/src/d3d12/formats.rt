//! A list of formats that came with a question, as contracts see it; at run time its length.

ghost use Rattle.std.specs.Prelude.{◌≡◌, length, option_copied};

use crate::d3d12::types::Format;
use crate::history::History;
use std::marker::Model;

/// A list of formats. At run time it has its length alone.
#[derive(Drop)]
pub struct Formats {
    count: usize,
    list: History<Format>,
}

impl Model for Formats {
    ghost use Rattle.std.specs.Prelude.{◌≡◌, List, length};
    ghost use Rattle.gpu_device.specs.declared.d3d12.types.Format.{Format};

    ghost Value = { List Format };

    ghost view = { λ f. f.list };

    ghost invariant = { λ f. f.count ≡ length f.list };
}

impl Formats {
    /// These formats.
    pub fn of(formats: &[Format]) -> Formats
        ensures { result ≡ formats.now }
    {
        let mut list = History::new();
        let mut index = formats.len();
        while index > 0 {
            index -= 1;
            list.push(&formats[index]);
        }
        Formats {
            count: formats.len(),
            list,
        }
    }

    /// These formats, where a list of them came.
    pub fn of_list(formats: Option<&[Format]>) -> Option<Formats>
        ensures { result ≡ option_copied formats.entry }
    {
        formats.map(Formats::of)
    }

    /// How many there are.
    pub fn len(&self) -> usize
        ensures { result ≡ length self.now }
    {
        self.count
    }
}
