//! Requests that are committed together.

ghost use Rattle.std.specs.Prelude.{◌≡◌, ◌==◌, slice_get, option_map};
ghost use Rattle.mm_module.specs.Batch.{members_of, size_of, batch_text};
ghost use Rattle.mm_module.specs.Batches.{batch_of};

/// Requests under one commit.
#[derive(Clone, Copy)]
pub enum Batch<'a> {
    /// One request.
    One(&'a [u8]),
    /// The requests are the pieces of this text between bytes TAB.
    Many(&'a [u8]),
}

fn is_tab(byte: &u8) -> bool
    ensures { result ≡ (byte.now == 9) }
{
    *byte == b'\t'
}

impl<'a> Batch<'a> {
    /// The bytes: the members, joined by TABs.
    pub fn text(&self) -> &'a [u8]
        ensures { result.now ≡ batch_text (batch_of self.now) }
    {
        match *self {
            Batch::One(request) => request,
            Batch::Many(text) => text,
        }
    }

    /// The number of requests, at least 1.
    pub fn len(&self) -> usize
        ensures { result ≡ size_of (batch_of self.now) }
    {
        match *self {
            Batch::One(_) => 1,
            Batch::Many(text) => text.split(is_tab).count(),
        }
    }

    /// The request at this index, None from `len` on.
    pub fn member(&self, i: usize) -> Option<&'a [u8]>
        ensures { option_map (λ (m : _). m.now) result
            ≡ slice_get (members_of (batch_of self.now)) i }
    {
        match *self {
            Batch::One(request) => (i == 0).then_some(request),
            Batch::Many(text) => text.split(is_tab).nth(i),
        }
    }
}
