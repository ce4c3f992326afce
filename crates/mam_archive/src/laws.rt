//! What is so of each archive, of its ids and of its chains.
ghost use Rattle.std.specs.Prelude.{◌≡◌, ℕ, ◌+◌, ◌-◌, ◌<◌, ◌≤◌, ◌^◌, List, [], Some, None, length, slice_get};
ghost use Rattle.std.specs.Option.{option_map};
ghost use Rattle.std.specs.Str.{IsAscii, IsUtf8};
ghost use Rattle.mam_archive.specs.Entries.{AreKept, AreNumbered, EntryView};
ghost use Rattle.mam_archive.specs.Ids.{id_of};
ghost use Rattle.mam_archive.specs.Peers.{chain_ends, chain_of, first_of, index_of, next_of, previous_of};

use crate::archive::Archive;

/// A law: the numbers of the entries that an archive keeps are consecutive, the greatest is the last one given, and
/// they are as many as the archive keeps at most. None is kept exactly where no number was given.
pub fn entries_are_kept(archive: &Archive)
    ensures { AreKept archive.now.keep archive.now.last archive.now.entries }
{
    archive.last();
}

/// A law: different numbers have different ids.
pub fn ids_differ()
    ensures { (m n : ℕ) → m < 2 ^ 64 → n < 2 ^ 64 → id_of m ≡ id_of n → m ≡ n }
{}

/// A law: an id is 16 bytes of ASCII, and so a text.
pub fn id_is_text()
    ensures text { (n : ℕ) → IsUtf8 (id_of n) }
    ensures ascii { (n : ℕ) → IsAscii (id_of n) }
    ensures bytes { (n : ℕ) → length (id_of n) ≡ 16 }
{}

/// A law: from a peer's first entry on, the next ones are the entries with that peer, in order and each once, and the
/// previous ones are the same entries in the other order, down to the first, which has none. So the entries with a peer
/// are walked without a look at any other. The index of an entry is its place among them, from 0, and the ends of a
/// chain are the first and the last of them, with their count.
pub fn chain_is_walked()
    ensures first { (owner peer : List ℕ) (entries : List EntryView) →
        first_of owner peer entries ≡ option_map (λ e. e.number) (slice_get (chain_of owner peer entries) 0) }
    ensures next { (last i : ℕ) (owner peer : List ℕ) (entries : List EntryView) (e : EntryView) → AreNumbered last entries →
        length entries ≤ last → slice_get (chain_of owner peer entries) i ≡ Some e →
        next_of owner e.number entries ≡ option_map (λ f. f.number) (slice_get (chain_of owner peer entries) (i + 1)) }
    ensures previous { (last i : ℕ) (owner peer : List ℕ) (entries : List EntryView) (e : EntryView) → AreNumbered last entries →
        length entries ≤ last → slice_get (chain_of owner peer entries) i ≡ Some e → 1 ≤ i →
        previous_of owner e.number entries ≡ option_map (λ f. f.number) (slice_get (chain_of owner peer entries) (i - 1)) }
    ensures start { (last : ℕ) (owner peer : List ℕ) (entries : List EntryView) (e : EntryView) → AreNumbered last entries →
        length entries ≤ last → slice_get (chain_of owner peer entries) 0 ≡ Some e → previous_of owner e.number entries ≡ None }
    ensures index { (last i : ℕ) (owner peer : List ℕ) (entries : List EntryView) (e : EntryView) → AreNumbered last entries →
        length entries ≤ last → slice_get (chain_of owner peer entries) i ≡ Some e → index_of owner e.number entries ≡ Some i }
    ensures ends { (owner peer : List ℕ) (entries : List EntryView) (e f : EntryView) → slice_get (chain_of owner peer entries) 0 ≡ Some e →
        slice_get (chain_of owner peer entries) (length (chain_of owner peer entries) - 1) ≡ Some f →
        chain_ends owner peer entries ≡ Some (record { first = e.number; last = f.number; count = length (chain_of owner peer entries) }) }
    ensures none { (owner peer : List ℕ) (entries : List EntryView) → chain_of owner peer entries ≡ [] → chain_ends owner peer entries ≡ None }
{}
