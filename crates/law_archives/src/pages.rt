//! The laws of pages.
ghost use Rattle.std.specs.Prelude.{◌≡◌, Some};
ghost use Rattle.law_archives.specs.Pages.{HasAsked, HasFirst, HasLast};
ghost use Rattle.mam_pages.specs.Cuts.{CutView};
ghost use Rattle.mam_pages.specs.Kept.{Kept};
ghost use Rattle.mam_pages.specs.PageOf.{page_of};
ghost use Rattle.mam_pages.specs.declared.query.PageQuery.{PageQuery};
ghost use Rattle.mam_pages.specs.declared.query.PagePosition.TheVariants.{First, Last};

/// A law: a page has entries that were asked for and no others, in the order of the archive, and no more than were asked for or
/// than `MOST_RESULTS` (`asked`). One that is asked for from the beginning has the first of all that were asked for (`first`), one
/// from the end the last of them (`last`); and it is said to be complete exactly where it has them all.
pub fn pages_have_what_was_asked_for()
    ensures asked { (kept : Kept) (query : PageQuery) (cut : CutView) → page_of kept query ≡ Some cut → HasAsked kept query cut }
    ensures first { (kept : Kept) (query : PageQuery) (cut : CutView) → page_of kept query ≡ Some cut → query.position ≡ First → HasFirst kept query cut }
    ensures last { (kept : Kept) (query : PageQuery) (cut : CutView) → page_of kept query ≡ Some cut → query.position ≡ Last → HasLast kept query cut }
{}
