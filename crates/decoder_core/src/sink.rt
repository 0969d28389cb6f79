//! The receiver of a run's items.
ghost use Rattle.std.specs.Prelude.{◌≡◌, OnOk, OnErr, fold};
ghost use Rattle.std.specs.Str.{chars};
ghost use Rattle.decoder_core.specs.{Bulk.plain_to, Bulk.run_width, Shown.Shown, Shown.TookPrefix};

use crate::bulk::Stride;
use crate::item::Item;
use crate::memory::OutOfMemory;

/// A receiver of the items of `run_piece`. `seen` is what it holds, and `taken` what it then holds
/// after one more item. It takes nothing of a refused item.
pub trait Sink<S> {
    ghost Seen: { Type 0 };

    ghost seen: { Self → Seen };

    ghost taken: { Seen → Shown S → Seen };

    /// Takes an item (`ok`). Its end is counted from the start of the bytes of the run, and is
    /// negative if the item ends before them. `after` is the decoder's state after the byte that
    /// gave the item. If memory runs out, nothing is taken (`err`).
    fn item(&mut self, item: Item, end: i64, after: S) -> Result<(), OutOfMemory>
        ensures ok { OnOk result (seen self.new ≡ taken (seen self.old) (record { item = item; end = end; after = after })) }
        ensures err { OnErr result (seen self.new ≡ seen self.old) };

    /// Takes the code points of a text, each of them an item (`ok`). They have no gaps, and
    /// together `width` bytes. `end` is the end of the last item, and `after` the decoder's state
    /// after each. If memory runs out, a prefix of them was taken (`err`).
    fn plain(
        &mut self,
        text: &str,
        width: usize,
        end: i64,
        stride: Stride,
        after: S,
    ) -> Result<(), OutOfMemory>
        requires { width ≡ run_width stride (chars text.now) }
        ensures ok { OnOk result (seen self.new ≡ fold taken (seen self.old) (plain_to stride end after (chars text.now))) }
        ensures err { OnErr result (TookPrefix taken (seen self.old) (plain_to stride end after (chars text.now)) (seen self.new)) };
}
