//! A map for C, which lies in memory of the caller.
//!
//! Each export but the size is one call of [`Livemap`], and promises that call's clause of the map before and after it: so nothing is
//! said here that isn't said of the safe call. A line counts its own work, from nothing.
//!
//! Bytes may be any. What memory must be can't be tested, and is trusted from C: `at` is aligned to 16; at [`livemap_init`] it has room
//! for a map, and at all others it has one, which `livemap_init` made and [`livemap_drop`] didn't free; no two calls have one map at a
//! time. A slice is a pointer that isn't null, also to no bytes, and a length; its bytes are initialised and lie apart from the map,
//! and those of `out` are the call's alone.
#![tactic(auto)]

ghost use Rattle.std.specs.Prelude.{◌≡◌};
ghost use Rattle.std.specs.Borrow.{full_share, sem};
ghost use Rattle.std.specs.Mem.{type_size};
ghost use Rattle.std.specs.Ptr.{lies_at, room_at};
ghost use Rattle.map_model.specs.State.{empty_map};
ghost use Rattle.livemap_c.specs.contracts.livemap.Livemap.{the_row};
ghost use Rattle.livemap_c.specs.declared.livemap.Livemap.{Livemap};
ghost use Rattle.livemap_c.specs.Calls.{IsFresh, SaysLine, SaysScript, CopiesText};

pub mod livemap;
pub mod status;
pub mod text;

use livemap::Livemap;
use std::alloc::Global;

/// The bytes of a map.
#[unsafe(no_mangle)]
pub extern "C" fn livemap_size() -> usize
    ensures { result ≡ type_size the_row }
{
    std::mem::size_of::<Livemap>()
}

/// Makes a map without layers where there is room for one. It takes no memory, and its layers may have 65,536 items each.
#[unsafe(no_mangle)]
pub unsafe extern "C" fn livemap_init(alloc: Global, at: *mut u8)
    requires* { sem 𝓛 (room_at the_row at) }
    ensures* { ∃ₛ (λ (map : Livemap). sem 𝓛 (lies_at the_row full_share at map) ∗ ⌜ IsFresh empty_map.most_items map ⌝) }
{
    std::ptr::write(at as *mut Livemap, Livemap::largest(alloc));
}

/// Frees what a map owns. Its own memory is the caller's.
#[unsafe(no_mangle)]
pub unsafe extern "C" fn livemap_drop(at: *mut u8)
    ghost map: { Livemap }
    requires* { sem 𝓛 (lies_at the_row full_share at map) }
    ensures* { sem 𝓛 (room_at the_row at) }
{
    Livemap::release(std::ptr::read(at as *mut Livemap));
}

/// Executes a line, as [`Livemap::line`] does.
#[unsafe(no_mangle)]
pub unsafe extern "C" fn livemap_line(at: *mut u8, line: &[u8]) -> u32
    ghost map: { Livemap }
    requires* { sem 𝓛 (lies_at the_row full_share at map) }
    ensures* { ∃ₛ (λ (after : Livemap). sem 𝓛 (lies_at the_row full_share at after) ∗ ⌜ SaysLine map after line.now result ⌝) }
{
    Livemap::line(&mut *(at as *mut Livemap), line)
}

/// Executes the lines of a script, as [`Livemap::script`] does.
#[unsafe(no_mangle)]
pub unsafe extern "C" fn livemap_script(at: *mut u8, script: &[u8]) -> u32
    ghost map: { Livemap }
    requires* { sem 𝓛 (lies_at the_row full_share at map) }
    ensures* { ∃ₛ (λ (after : Livemap). sem 𝓛 (lies_at the_row full_share at after) ∗ ⌜ SaysScript map after script.now result ⌝) }
{
    Livemap::script(&mut *(at as *mut Livemap), script)
}

/// Copies the text of the last answer, as [`Livemap::copy_text`] does.
#[unsafe(no_mangle)]
pub unsafe extern "C" fn livemap_text(at: *mut u8, out: &mut [u8]) -> usize
    ghost map: { Livemap }
    requires* { sem 𝓛 (lies_at the_row full_share at map) }
    ensures* { ∃ₛ (λ (after : Livemap). sem 𝓛 (lies_at the_row full_share at after) ∗ ⌜ CopiesText map after out.old out.new result ⌝) }
{
    Livemap::copy_text(&mut *(at as *mut Livemap), out)
}
