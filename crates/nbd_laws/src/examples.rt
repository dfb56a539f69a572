//! Worked examples: small captures that an order of service explains, or does not. The captures stand
//! in specs/Captures.antt and the files beside it.

ghost use Rattle.std.specs.Prelude.{◌≡◌, ℕ, List, [], ◌∷◌, length};
ghost use Rattle.nbd_wire.specs.{declared.{entry.Entry.Entry, profile.Profile.TheVariants.Wide}, Prelude.{part, whole, Start, Zeroes, image, Pair, flat, Unknown}};
ghost use Rattle.nbd_laws.specs.captures.Openings as captures;
ghost use Rattle.nbd_laws.specs.captures.Reads as reads;
ghost use Rattle.nbd_laws.specs.captures.Chunks as chunks;
ghost use Rattle.nbd_laws.specs.captures.Requests as requests;
ghost use Rattle.nbd_laws.specs.captures.Options as options;
ghost use Rattle.nbd_laws.specs.Explaining.{IsNo, IsYes, IsYesOf};

/// What READs may show of the WRITEs and of the start.
pub fn reads()
    // A READ of four zeroes is explained by its service.
    ensures first_run { IsYes (flat reads.first_run) (whole 1 ∷ []) Zeroes 1 1 0 }
    // A WRITE and a READ of what it wrote are explained; an order that leaves out the READ is not.
    ensures write_and_read { IsYes (flat reads.write_and_read) (whole 1 ∷ whole 2 ∷ []) Zeroes 2 2 0 }
    ensures write_and_read_missing { IsNo (flat reads.write_and_read) (whole 1 ∷ []) Zeroes }
    // The same with another byte is not explained.
    ensures write_and_misread { IsNo (flat reads.write_and_misread) (whole 1 ∷ whole 2 ∷ []) Zeroes }
    // A READ may show a WRITE that is answered only later.
    ensures read_before_reply { IsYes (flat reads.read_before_reply) (whole 1 ∷ whole 2 ∷ []) Zeroes 2 2 0 }
    // A READ after a WRITE that fails may show any bytes.
    ensures failed_write { IsYes (flat reads.failed_write) (whole 1 ∷ whole 2 ∷ []) Zeroes 2 2 0 }
    // It may not where the WRITE succeeds.
    ensures ignored_write { IsNo (flat reads.ignored_write) (whole 1 ∷ whole 2 ∷ []) Zeroes }
    // Of two WRITEs the later one counts.
    ensures overwritten { IsYes (flat reads.overwritten) (whole 1 ∷ whole 2 ∷ whole 3 ∷ []) Zeroes 3 3 0 }
    // A WRITE does not change what was read before it.
    ensures read_first { IsYes (flat reads.read_first) (whole 1 ∷ whole 2 ∷ []) Zeroes 2 2 0 }
    // A request that comes after the reply to another is served after it.
    ensures two_reads { IsYes (flat reads.two_reads) (whole 1 ∷ whole 2 ∷ []) Zeroes 2 2 0 }
    ensures two_reads_late { IsNo (flat reads.two_reads) (whole 2 ∷ whole 1 ∷ []) Zeroes }
    // Such a byte is wrong from zeroes, and right from an image that has it or from unknown bytes.
    ensures odd_byte_zeroes { IsNo (flat reads.odd_byte) (whole 1 ∷ []) Zeroes }
    ensures odd_byte_unknown { IsYes (flat reads.odd_byte) (whole 1 ∷ []) Unknown 1 1 0 }
    ensures odd_byte_image { IsYes (flat reads.odd_byte) (whole 1 ∷ []) (image (255 ∷ 0 ∷ 0 ∷ 0 ∷ 0 ∷ 0 ∷ 0 ∷ 0 ∷ [])) 1 1 0 }
    // A pending WRITE that is served makes its range unknown; one that is not served has no effect.
    ensures pending_write { IsYes (flat reads.pending_write) (whole 1 ∷ whole 2 ∷ []) Zeroes 2 1 0 }
    ensures pending_write_unserved { IsNo (flat reads.pending_write) (whole 2 ∷ []) Zeroes }
    // A trimmed range reads as anything.
    ensures trimmed_read { IsYes (flat reads.trimmed_read) (whole 1 ∷ whole 2 ∷ []) Zeroes 2 2 0 }
    // A zeroed range reads as zeroes only.
    ensures zeroed_read { IsNo (flat reads.zeroed_read) (whole 1 ∷ whole 2 ∷ []) Unknown }
    // A cookie is free again once its request is answered, also within the next request.
    ensures shared_cookie { IsYes (flat reads.shared_cookie) (whole 1 ∷ whole 2 ∷ []) Zeroes 2 2 0 }
    // After a DISC the server may answer what is outstanding.
    ensures disconnection { IsYes (flat reads.disconnection) (whole 1 ∷ whole 2 ∷ []) Zeroes 2 2 0 }
{}

/// Requests that are served in parts.
pub fn parts()
    // A WRITE that is served in two parts with a READ between them: the READ shows one of its bytes. Served atomically the
    // WRITE does not explain it. The parts must cover the WRITE and share no offset, and no entry serves it atomically after
    // a part.
    ensures half_written { IsYes (flat reads.half_written) (part 1 0 1 ∷ whole 2 ∷ part 1 1 1 ∷ []) Zeroes 2 2 0 }
    ensures half_written_atomically { IsNo (flat reads.half_written) (whole 1 ∷ whole 2 ∷ []) Zeroes }
    ensures half_written_uncovered { IsNo (flat reads.half_written) (part 1 0 1 ∷ whole 2 ∷ []) Zeroes }
    ensures half_written_shared { IsNo (flat reads.half_written) (part 1 0 1 ∷ part 1 0 2 ∷ whole 2 ∷ []) Zeroes }
    ensures half_written_repeated { IsNo (flat reads.half_written) (part 1 0 1 ∷ whole 1 ∷ whole 2 ∷ []) Zeroes }
    // A READ that is served in two parts with a WRITE between them.
    ensures half_read { IsYes (flat reads.half_read) (part 2 0 1 ∷ whole 1 ∷ part 2 1 1 ∷ []) Zeroes 2 2 0 }
    // The parts of a request lie inside the export, also where its range does not.
    ensures improper_write { IsYes (flat reads.improper_write) (part 1 6 2 ∷ []) Zeroes 1 1 1 }
    ensures improper_write_outside { IsNo (flat reads.improper_write) (part 1 6 4 ∷ []) Zeroes }
{}

/// Replies of several chunks.
pub fn chunks()
    // The pieces of a structured reply come in any order, and a hole reads as zeroes.
    ensures structured_read { IsYes (flat chunks.structured_read) (whole 1 ∷ whole 2 ∷ []) Zeroes 2 2 0 }
    // Each piece is compared.
    ensures later_piece { IsNo (flat chunks.later_piece) (whole 1 ∷ whole 2 ∷ []) Zeroes }
    // A READ of no byte needs no content.
    ensures empty_read { IsYes (flat chunks.empty_read) (whole 1 ∷ []) Zeroes 1 1 0 }
    // An error chunk may name an offset of its request.
    ensures failed_read { IsYes (flat chunks.failed_read) (whole 1 ∷ []) Zeroes 1 1 0 }
    // The bytes of a READ that fails are not compared.
    ensures failed_content { IsYes (flat chunks.failed_content) (whole 1 ∷ []) Zeroes 1 1 0 }
{}

/// Which requests a client should not have sent.
pub fn requests()
    // Requests of each type with the flags that the export allows are proper.
    ensures proper_requests { IsYes (flat requests.proper_requests)
        (whole 1 ∷ whole 2 ∷ whole 3 ∷ whole 4 ∷ whole 5 ∷ whole 6 ∷ []) Zeroes 6 6 0 }
    // A change of a read-only export is improper.
    ensures changes_of_read_only { IsYes (flat requests.changes_of_read_only) (whole 1 ∷ whole 2 ∷ whole 3 ∷ []) Zeroes 3 3 3 }
    // What the export does not offer is improper.
    ensures requests_not_offered { IsYes (flat requests.requests_not_offered) (whole 1 ∷ whole 2 ∷ whole 3 ∷ whole 4 ∷ []) Zeroes 4 4 4 }
    // A flag that the export or the type does not allow is improper.
    ensures flags_not_allowed { IsYes (flat requests.flags_not_allowed) (whole 1 ∷ whole 2 ∷ whole 3 ∷ whole 4 ∷ []) Zeroes 4 4 4 }
    // So are an unknown type, a FLUSH with a range and a range past the end.
    ensures odd_requests { IsYes (flat requests.odd_requests) (whole 1 ∷ whole 2 ∷ whole 3 ∷ whole 4 ∷ []) Zeroes 4 4 4 }
    // An improper request that fails is counted.
    ensures improper_read { IsYes (flat requests.improper_read) (whole 1 ∷ []) Zeroes 1 1 1 }
    // A READ of no byte at the end of the export is proper.
    ensures read_of_nothing { IsYes (flat requests.read_of_nothing) (whole 1 ∷ []) Zeroes 1 1 0 }
{}

/// Negotiations.
pub fn options()
    // Without NO_ZEROES the answer to EXPORT_NAME is padded.
    ensures padded_export { IsYes (flat options.padded_export) (whole 1 ∷ []) Zeroes 1 1 0 }
    // With NO_ZEROES it is not.
    ensures bare_export { IsYes (flat options.bare_export) (whole 1 ∷ []) Zeroes 1 1 0 }
    // In Wide a metadata context may be selected.
    ensures context_selected { IsYesOf Wide (flat options.context_selected) [] Zeroes 0 0 0 }
    // STARTTLS may be refused by an error.
    ensures refused_tls { IsYes (flat options.refused_tls) [] Zeroes 0 0 0 }
    // A session may end with ABORT.
    ensures abort_acknowledged { IsYes (flat options.abort_acknowledged) [] Zeroes 0 0 0 }
    // A LIST is answered by names and an ACK.
    ensures export_list { IsYes (flat options.export_list) [] Zeroes 0 0 0 }
    // A session may end where the server closes in place of an answer.
    ensures export_name_alone { IsYes (flat options.export_name_alone) [] Zeroes 0 0 0 }
{}

/// What no order explains.
pub fn unexplained()
    // An image of another size than the export explains nothing.
    ensures wrong_image { (bytes : List ℕ) → length bytes ≡ 9 → IsNo (flat captures.opening) [] (image bytes) }
    // An order that serves a request twice atomically explains no capture.
    ensures named_twice { (capture : List Pair) (initial : Start) → IsNo capture (whole 1 ∷ whole 1 ∷ []) initial }
    // A capture of one byte of the client is explained by no order.
    ensures hasty_client { (order : List Entry) (initial : Start) → IsNo (flat captures.hasty_client) order initial }
{}
