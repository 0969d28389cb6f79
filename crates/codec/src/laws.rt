//! The number of items that decoding gives.
ghost use Rattle.std.specs.Prelude.{ℕ, ◌+◌, ◌≤◌, List, [], length};
ghost use Rattle.enc_names.specs.declared.setting.Setting.{Setting};
ghost use Rattle.index_loader.specs.Files.{Files};
ghost use Rattle.decoder_core.specs.{Queue.run, Shown.shown_from};
ghost use Rattle.codec.specs.{Any.any, Decode.decode, Near.AreNear, declared.state.AnyState.AnyState};

use crate::decoder::AnyDecoder;

/// States that bytes give few items. A slice gives at most seven items more than it has bytes, since
/// a state holds at most seven bytes (`shown`). In a run over them, no item ends further before
/// their end than that many bytes (`near`). The end gives at most seven items (`end`). The call does
/// nothing.
pub fn law_few_items(_decoder: &AnyDecoder<'_>)
    ensures shown { (read : ℕ) (s : AnyState) (bytes : List ℕ) → length (shown_from (any _decoder.now) read s bytes) ≤ length bytes + 7 }
    ensures near { (s : AnyState) (bytes : List ℕ) → AreNear (length bytes + 7) (run (any _decoder.now) s bytes) }
    ensures end { (s : AnyState) → length (run (any _decoder.now) s []) ≤ 7 }
{}

/// Decoding gives no more items than there are bytes. The call does nothing.
pub fn law_items_are_at_most_bytes()
    ensures { (files : Files) (setting : Setting) (bytes : List ℕ) → length (decode files setting bytes).items ≤ length bytes }
{}
