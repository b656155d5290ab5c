//! What a command of a DirectX 12 trace says that is no other API's.

ghost use Rattle.std.specs.Prelude.{◌∷◌, IfOk, codes};
ghost use Rattle.gpu_block_session.specs.Words.{texts};
ghost use Rattle.gpu_trace_text.specs.D3D12Command.{words, OtherFits};
ghost use Rattle.gpu_trace_text.specs.Spelled.{Says};

use crate::command::{alone, only_number};
use crate::d3d12::resource::{category_of, wanted_of};
use crate::device::ask::location_of;
use crate::spelled::Spelled;
use gpu_block_session::words::{name_of, number};
use gpu_run::d3d12::{Other, Request};
use std::alloc::{AllocError, Global};

impl Spelled for Request {
    ghost use Rattle.gpu_trace_text.specs.D3D12Command.{request_words, FitsRequest};

    ghost spelling = { request_words };

    ghost Fits = { FitsRequest };

    fn said(alloc: Global, words: &[&str]) -> Result<Option<Request>, AllocError> {
        let [size, alignment, location, category, name] = words else {
            return Ok(None);
        };
        let Some(size) = number(size) else {
            return Ok(None);
        };
        let Some(alignment) = number(alignment) else {
            return Ok(None);
        };
        let Some(location) = location_of(location) else {
            return Ok(None);
        };
        let Some(category) = category_of(category) else {
            return Ok(None);
        };
        let Some(name) = name_of(alloc, name)? else {
            return Ok(None);
        };
        Ok(Some(Request {
            size,
            alignment,
            location,
            category,
            name,
        }))
    }
}

fn rename(alloc: Global, arguments: &[&str]) -> Result<Option<Other>, AllocError>
    ensures { IfOk result (λ found. Says words OtherFits (codes "rename" ∷ texts arguments.now) found) }
{
    let [key, name] = arguments else {
        return Ok(None);
    };
    let Some(key) = number(key) else {
        return Ok(None);
    };
    let Some(name) = name_of(alloc, name)? else {
        return Ok(None);
    };
    Ok(Some(Other::Rename { key, name }))
}

fn create(alloc: Global, arguments: &[&str]) -> Result<Option<Other>, AllocError>
    ensures { IfOk result (λ found. Says words OtherFits (codes "create" ∷ texts arguments.now) found) }
{
    let [key, rest @ ..] = arguments else {
        return Ok(None);
    };
    let Some(key) = number(key) else {
        return Ok(None);
    };
    let Some(wanted) = wanted_of(alloc, rest)? else {
        return Ok(None);
    };
    Ok(Some(Other::Create { key, wanted }))
}

impl Spelled for Other {
    ghost use Rattle.gpu_trace_text.specs.D3D12Command.{words, OtherFits};

    ghost spelling = { words };

    ghost Fits = { OtherFits };

    fn said(alloc: Global, words: &[&str]) -> Result<Option<Other>, AllocError> {
        let [verb, arguments @ ..] = words else {
            return Ok(None);
        };
        match *verb {
            "rename" => rename(alloc, arguments),
            "create" => create(alloc, arguments),
            "release" => match only_number(arguments) {
                Some(key) => Ok(Some(Other::Release { key })),
                None => Ok(None),
            },
            "leaks" => Ok(alone(arguments, Other::Leaks)),
            "committed" => match only_number(arguments) {
                Some(memory_type) => Ok(Some(Other::Committed { memory_type })),
                None => Ok(None),
            },
            _ => Ok(None),
        }
    }
}
