//! What reading and writing an archive's payloads say of each other.
ghost use Rattle.std.specs.Prelude.{◌≡◌, None};
ghost use Rattle.im_mam.specs.ArchiveAnswers.{IsFin, IsMamResult, WritesMamResult, fin_checks, fin_elem, fin_elem_without_index, index_in, is_fin, is_result, result_checks};
ghost use Rattle.im_mam.specs.ArchiveQuery.{IsMamQuery, WritesMamQuery, is_query, query_checks};
ghost use Rattle.im_payload.specs.Checks.{IsExactBy};
ghost use Rattle.mam_pages.specs.declared.fin.Fin.{Fin};

/// A law: a tree stands for one end of a page at most, and is refused for want of memory alone where it stands for one; and
/// what is written of a value that any tree stands for is read back as that value.
pub fn ends_of_pages_are_exact()
    ensures { IsExactBy is_fin fin_checks IsFin (λ fin tree. tree ≡ fin_elem fin) }
{}

/// The same law for an archive's query.
pub fn queries_are_exact()
    ensures { IsExactBy is_query query_checks IsMamQuery WritesMamQuery }
{}

/// The same law for an archived message.
pub fn archived_messages_are_exact()
    ensures { IsExactBy is_result result_checks IsMamResult WritesMamResult }
{}

/// A law: where the end of a page is written without the place of its first item, no `index` is read in it.
pub fn no_index_is_told_where_it_is_left_out()
    ensures { (fin : Fin) → index_in (fin_elem_without_index fin) ≡ None }
{}
