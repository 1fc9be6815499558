//! Bytes that are put.

ghost use Rattle.std.specs.Prelude.{◌≡◌, ◌≤◌, ℕ, List, Ok, Option, IfOk, OnOk, OnErr, take, length};
ghost use Rattle.edge_io.specs.Faults.{Appends, HasCause, Puts};

/// A put failed, and the sink's count of faults rose.
#[derive(Clone, Copy, Debug, PartialEq, Eq)]
pub struct Failed;

/// What takes bytes.
pub trait Sink {
    /// The bytes that were put, where the sink tells them.
    ghost written: { Self → Option (List ℕ) };

    /// How many faults there were.
    ghost faults: { Self → ℕ };

    /// Puts the front of a piece and answers how many bytes it took: at least one where there is one. A piece without bytes gives 0,
    /// and nothing is put.
    ///
    /// `Failed` comes only where the count of faults rose in this call, and puts nothing. A sink that takes nothing of
    /// a piece that has bytes is such a fault.
    fn put(&mut self, piece: &[u8]) -> Result<usize, Failed>
        ensures empty { length piece.now ≡ 0 → result ≡ Ok 0 }
        ensures puts { IfOk result (Puts (written self.old) piece.now (written self.new)) }
        ensures kept { OnErr result (written self.new ≡ written self.old) }
        ensures cause { HasCause (faults self.old) (faults self.new) result };
}

/// Puts a whole text, in as many puts as the sink needs. It takes no memory.
///
/// `Failed` comes only where the sink's count of faults rose in this call, and then the front of the text was put.
pub fn put_all<K: Sink>(sink: &mut K, text: &[u8]) -> Result<(), Failed>
    ensures whole { OnOk result (Appends (K.written sink.old) text.now (K.written sink.new)) }
    ensures front { OnErr result ((n : ℕ) × (n ≤ length text.now) × Appends (K.written sink.old) (take n text.now) (K.written sink.new)) }
    ensures cause { HasCause (K.faults sink.old) (K.faults sink.new) result }
{
    let mut at = 0;
    while at < text.len() {
        let count = sink.put(&text[at..])?;
        at += count;
    }
    Ok(())
}
