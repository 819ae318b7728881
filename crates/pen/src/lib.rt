// The pen: a writer by value over a lent slice. It stores only inside the room, and counts two past it at most, so that whether the
// finished bytes fit is known also where the last line break is dropped again.
#![tactic(auto)]

ghost use Rattle.std.specs.Prelude.{◌≡◌, ℕ, ◌+◌, ◌-◌, ◌/◌, ◌%◌, ◌<◌, ◌^◌, min, max, not, [], ◌∷◌, length, get_or, replicate, eqb};
ghost use Rattle.std.proofs.lemmas.List.Edits.{sets};
ghost use Rattle.definition.specs.Base.{spaces, when◌then◌else◌};
ghost use Rattle.definition.specs.Pen.{hashed, ends_closed};
ghost use Rattle.pen.specs.Pen.{from_bool};
ghost use Rattle.pen.specs.Pen.{fields, pen, put1, puts, column_over, at_column, put_to, line_ended, with_flow, with_key, with_inline, with_raw, noted, rawed, unput, ended};
ghost use Rattle.pen.specs.Shown.{begun};

use definition::Settings;

// A writer keeps nine numbers in two, since it goes in and comes back at every call (docs/DECISIONS.md). What it says is `fields`.
// `counts`: how many bytes were put, at most the room and two; RAW times one more than where the last raw text ended without a line break, 0 at the
// start; INLINE times one more than the place of the node whose inline comment was written last, 0 at the start.
// `state`: what the byte put last was put over, 0 past the room; 256 times that byte, 0 at the start; KEY inside an inline key; TRACKS where columns are
// kept; FLOW times how many flow collections are open; COLUMN times the columns since the last line break, at most the room and two.
#[derive(Clone, Copy)]
pub struct Writer {
    pub counts: usize,
    pub state: usize,
}

// 2^22, and 2^45: RAWS times as much.
const RAW: usize = 4194304;

const RAWS: usize = 8388608;

const INLINE: usize = 35184372088832;

// 2^16, 2^17, 2^18, and 2^36: FLOWS times as much.
const KEY: usize = 65536;

const TRACKS: usize = 131072;

const FLOW: usize = 262144;

const FLOWS: usize = 262144;

const COLUMN: usize = 68719476736;

// The column after a byte `n` times, where it was `column` before it.
#[tactic(auto, using(crate::proofs::Texts::again_break, crate::proofs::Texts::again_other))]
fn column_after(column: usize, most: usize, b: u8, n: usize) -> usize
    requires { (0 < n) × (most < 2 ^ 28) }
    ensures { (result ≡ column_over most column (replicate n b)) × (result < 2 ^ 28) }
{
    if b == b'\n' {
        0
    } else {
        column.saturating_add(n).min(most)
    }
}

// The column after a byte, where it was `column` before it: once for each byte of a text that may be folded, so with as few steps as may be.
#[tactic(auto, unfolding(crate::specs::Pen::column_over))]
fn next_column(column: usize, most: usize, b: u8) -> usize
    requires { most < 2 ^ 28 }
    ensures { (result ≡ column_over most column (b ∷ [])) × (result < 2 ^ 28) }
{
    if b == b'\n' {
        0
    } else if column < most {
        column + 1
    } else {
        most
    }
}

// The column after a text.
fn column_over(column: usize, most: usize, t: &[u8]) -> usize
    requires { (column < 2 ^ 28) × (most < 2 ^ 28) }
    ensures { (result ≡ column_over most column t.now) × (result < 2 ^ 28) }
{
    t.iter().fold(column, |c, b| next_column(c, most, *b))
}

// Copies a text over a slice of its length. A loop, and not `copy_from_slice`: most texts are short, and that is a call of the C library, by a name
// that the archive would have to be given (docs/DESIGN-PASS.md).
fn copy(out: &mut [u8], t: &[u8])
    requires { length out.old ≡ length t.now }
    ensures { out.new ≡ t.now }
{
    for i in 0..t.len() {
        out[i] = t[i];
    }
}

// Stores of a text what has room from a place on.
fn copy_to(out: &mut [u8], at: usize, t: &[u8])
    ensures { out.new ≡ sets out.old at t.now }
{
    let start = at.min(out.len());
    let end = at.saturating_add(t.len()).min(out.len());
    copy(&mut out[start..end], &t[..end - start]);
}

// Stores of a byte `n` times what has room from a place on.
fn fill(out: &mut [u8], at: usize, b: u8, n: usize)
    ensures { out.new ≡ sets out.old at (replicate n b) }
{
    let start = at.min(out.len());
    let end = at.saturating_add(n).min(out.len());
    out[start..end].fill(b);
}

// A writer that has written nothing: columns are kept where lines are folded.
#[tactic(auto, unfolding(crate::specs::Shown::begun, crate::specs::Shown::keeps))]
pub fn fresh_writer(settings: &Settings) -> Writer
    ensures { fields result ≡ begun settings.now }
{
    Writer {
        counts: 0,
        state: if settings.width == 0 { 0 } else { TRACKS },
    }
}

impl Writer {
    // How many bytes were put.
    pub fn len(self) -> usize
        ensures { (result ≡ (fields self).len) × (result < 2 ^ 22) }
    {
        self.counts % RAW
    }

    pub fn column(self) -> usize
        ensures { (result ≡ (fields self).column) × (result < 2 ^ 28) }
    {
        self.state / COLUMN
    }

    // How many flow collections are open.
    pub fn flow(self) -> usize
        ensures { result ≡ (fields self).flow }
    {
        self.state / FLOW % FLOWS
    }

    // Inside an inline key.
    #[tactic(auto, using(crate::proofs::Kept::odd_bit))]
    pub fn is_key(self) -> bool
        ensures { from_bool result ≡ (fields self).key }
    {
        self.state / KEY % 2 != 0
    }

    // Columns are kept.
    fn is_tracking(self) -> bool
        ensures { result ≡ not (eqb (fields self).tracks 0) }
    {
        self.state / TRACKS % 2 != 0
    }

    // The byte put last.
    fn last(self) -> u8
        ensures { result ≡ (fields self).last }
    {
        (self.state / 256 % 256) as u8
    }

    // One more than where the last raw text ended without a line break, 0 at the start.
    fn raw(self) -> usize
        ensures { result ≡ (fields self).raw }
    {
        self.counts / RAW % RAWS
    }

    // The same with another depth of flow collections, or another key mark.
    pub fn with_flow(mut self, n: usize) -> Self
        requires { n < 2 ^ 18 }
        ensures { pen result [] ≡ with_flow n (pen self []) }
    {
        self.state = self.state / COLUMN * COLUMN + n * FLOW + self.state % FLOW;
        self
    }

    pub fn with_key(mut self, inside: bool) -> Self
        ensures { pen result [] ≡ with_key (from_bool inside) (pen self []) }
    {
        self.state = self.state / TRACKS * TRACKS + usize::from(inside) * KEY + self.state % KEY;
        self
    }

    // The same after another inline comment, or another raw text.
    fn with_inline(mut self, mark: usize) -> Self
        requires { mark < 2 ^ 19 }
        ensures { fields result ≡ with_inline mark (fields self) }
    {
        self.counts = mark * INLINE + self.counts % INLINE;
        self
    }

    fn with_raw(mut self, mark: usize) -> Self
        requires { mark < 2 ^ 23 }
        ensures { fields result ≡ with_raw mark (fields self) }
    {
        self.counts = self.counts / INLINE * INLINE + mark * RAW + self.counts % RAW;
        self
    }

    // The same at another column.
    pub fn at_column(mut self, column: usize) -> Self
        requires { column < 2 ^ 28 }
        ensures { fields result ≡ at_column column (fields self) }
    {
        self.state = column * COLUMN + self.state % COLUMN;
        self
    }

    // The same after `n` bytes more, the last of which is `last`. `out` is as it was before them. Nearly every byte has room: there the count grows
    // by `n`, and nothing else is worked out (docs/DESIGN-PASS.md).
    fn put_on(mut self, out: &[u8], n: usize, last: u8) -> Self
        requires { (0 < n) × (length out.now < 2 ^ 21) }
        ensures { fields result ≡ put_to (min ((fields self).len + n) (length out.now + 2)) last (get_or out.now ((fields self).len + n - 1) 0) (fields self) }
    {
        let end = self.len().saturating_add(n);
        let mut under = 0;
        if end <= out.len() {
            self.counts += n;
            under = out[end - 1];
        } else {
            self.counts = self.counts / RAW * RAW + end.min(out.len() + 2);
        }
        self.state = self.state / KEY * KEY + usize::from(last) * 256 + usize::from(under);
        self
    }

    // The same at the column that `next` gives for its column, where columns are kept.
    fn past<F: FnOnce(usize) -> usize>(self, next: F) -> Self
        requires may { F.pre next (fields self).column }
        requires short { (c : ℕ) → F.post next (fields self).column c → c < 2 ^ 28 }
        ensures { (c : ℕ) → ((r : ℕ) → F.post next (fields self).column r → r ≡ c) → fields result ≡ at_column (when eqb (fields self).tracks 0 then (fields self).column else c) (fields self) }
    {
        if self.is_tracking() {
            return self.at_column(next(self.column()));
        }
        self
    }

    pub fn byte(self, out: &mut [u8], b: u8) -> Self
        requires { length out.old < 2 ^ 21 }
        ensures { pen result out.new ≡ put1 (pen self out.old) b }
    {
        let most = out.len() + 2;
        let w = self.past(|c| next_column(c, most, b)).put_on(out, 1, b);
        let len = self.len();
        if len < out.len() {
            out[len] = b;
        }
        w
    }

    pub fn text(self, out: &mut [u8], t: &[u8]) -> Self
        requires { length out.old < 2 ^ 21 }
        ensures { pen result out.new ≡ puts t.now (pen self out.old) }
    {
        let Some(last) = t.last() else { return self };
        let most = out.len() + 2;
        let w = self
            .past(|c| column_over(c, most, t))
            .put_on(out, t.len(), *last);
        copy_to(out, self.len(), t);
        w
    }

    // One byte again and again.
    pub fn again(self, out: &mut [u8], b: u8, n: usize) -> Self
        requires { length out.old < 2 ^ 21 }
        ensures { pen result out.new ≡ puts (replicate n b) (pen self out.old) }
    {
        if n == 0 {
            return self;
        }
        let most = out.len() + 2;
        let w = self.past(|c| column_after(c, most, b, n)).put_on(out, n, b);
        fill(out, self.len(), b, n);
        w
    }

    pub fn spaces(self, out: &mut [u8], n: usize) -> Self
        requires { length out.old < 2 ^ 21 }
        ensures { pen result out.new ≡ puts (spaces n) (pen self out.old) }
    {
        self.again(out, b' ', n)
    }

    #[tactic(auto, unfolding(crate::specs::Pen::line_ended))]
    pub fn end_line(self, out: &mut [u8]) -> Self
        requires { length out.old < 2 ^ 21 }
        ensures { pen result out.new ≡ line_ended (pen self out.old) }
    {
        if self.last() == b'\n' {
            return self;
        }
        self.byte(out, b'\n')
    }

    // `#`, and the text where there is one.
    pub fn hashed(self, out: &mut [u8], t: &[u8]) -> Self
        requires { length out.old < 2 ^ 21 }
        ensures { pen result out.new ≡ puts (hashed t.now) (pen self out.old) }
    {
        let w = self.byte(out, b'#');
        if t.is_empty() {
            return w;
        }
        w.byte(out, b' ').text(out, t)
    }

    // The inline comment of the node at `place`, unless it was the last one written.
    pub fn comment(self, out: &mut [u8], place: usize, before: usize, t: &[u8]) -> Self
        requires { (length out.old < 2 ^ 21) × (place < 2 ^ 18) }
        ensures { pen result out.new ≡ noted place (record { text = t.now; spaces = before }) (pen self out.old) }
    {
        let mark = place + 1;
        if self.counts / INLINE == mark {
            return self;
        }
        self.spaces(out, at_least_one(before))
            .hashed(out, t)
            .with_inline(mark)
    }

    // A raw text, and where it ended if it has no line break there.
    pub fn replay(self, out: &mut [u8], t: &[u8]) -> Self
        requires { length out.old < 2 ^ 21 }
        ensures { pen result out.new ≡ rawed t.now (pen self out.old) }
    {
        let w = self.text(out, t);
        if ends_closed(t) {
            return w;
        }
        w.with_raw(w.len() + 1)
    }

    // Takes the byte put last away again, and puts back what it was put over.
    fn dropped(mut self, out: &mut [u8]) -> Self
        requires { 0 < (fields self).len }
        ensures { pen result out.new ≡ unput (pen self out.old) }
    {
        let len = self.len() - 1;
        let under = (self.state % 256) as u8;
        self.counts -= 1;
        if len < out.len() {
            out[len] = under;
        }
        self
    }

    // The end of a file: its last line break is dropped, if it directly follows a raw text that has none of its own.
    #[tactic(auto, unfolding(crate::specs::Pen::ended))]
    pub fn finish(self, out: &mut [u8]) -> Self
        ensures { pen result out.new ≡ ended (pen self out.old) }
    {
        if self.raw() > 0 && self.len() == self.raw() && self.last() == b'\n' {
            return self.dropped(out);
        }
        self
    }
}

pub fn at_least_one(n: usize) -> usize
    ensures { result ≡ max n 1 }
{
    n.max(1)
}

// The text ends in LF or CR.
#[tactic(auto, using(crate::proofs::Laws::some_closed, crate::proofs::Laws::none_closed))]
fn ends_closed(t: &[u8]) -> bool
    ensures { result ≡ ends_closed t.now }
{
    matches!(t.last(), Some(b'\n' | b'\r'))
}
