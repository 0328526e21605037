//! A law of the outcomes of labels. A law is the contract of an empty function: a call of the
//! function states the law.

ghost use Rattle.std.specs.Prelude.{◌≡◌, ◌≢◌, ⊤, ℕ, Contains, List, Some, map, slice_get};
ghost use Rattle.ariadne_base.specs.Listing.{Listing};
ghost use Rattle.ariadne_picture.specs.declared.label_info.LabelInfo.{LabelInfo};
ghost use Rattle.ariadne_picture.specs.declared.verdict.Verdict.TheVariants.{Accepted};
ghost use Rattle.ariadne_picture.specs.Accept.{AreAccepted, verdict_in};
ghost use Rattle.ariadne_picture.specs.Report.{LabelFields, ReportFields, World};
ghost use Rattle.ariadne_report.specs.declared.accept.Reason.{Reason};
ghost use Rattle.ariadne_report.specs.Judging.{AreOutcomes, Outcome, drawn_as, drawn_labels};
ghost use Rattle.ariadne_report.specs.Judging.{is_drawn, left_out_for};

/// A skipped label is not drawn, and any other label is drawn as accepted by its source. The drawn
/// labels depend only on the positions of the skipped labels, whatever errors a cache returns.
pub fn labels_are_drawn_or_listed<S, Id, E>()
    ensures accepted { (before w : World S Id) (r : ReportFields S) (outcomes : List (Outcome E))
        → AreOutcomes (λ (id : Id) (e : E). ⊤) before w r.config r.labels outcomes
        → AreAccepted w r (drawn_labels outcomes) }
    ensures never_both { (before w : World S Id) (r : ReportFields S) (outcomes : List (Outcome E))
        (k : ℕ) (reason : Reason E) (a : LabelInfo)
        → AreOutcomes (λ (id : Id) (e : E). ⊤) before w r.config r.labels outcomes
        → slice_get outcomes k ≡ Some (left_out_for reason)
        → Contains (drawn_labels outcomes) a → a.position ≢ k }
    ensures drawn { (before w : World S Id) (r : ReportFields S) (outcomes : List (Outcome E))
        (k : ℕ) (label : LabelFields S) (source : Listing) (info a : LabelInfo)
        → AreOutcomes (λ (id : Id) (e : E). ⊤) before w r.config r.labels outcomes
        → slice_get r.labels k ≡ Some label → slice_get outcomes k ≡ Some (drawn_as info)
        → w.source_of (w.id_of label.span) ≡ Some source
        → verdict_in w r.config k label source ≡ Accepted a
        → Contains (drawn_labels outcomes) a }
    ensures determined { (before w : World S Id) (r : ReportFields S)
        (outcomes others : List (Outcome E))
        → AreOutcomes (λ (id : Id) (e : E). ⊤) before w r.config r.labels outcomes
        → AreOutcomes (λ (id : Id) (e : E). ⊤) before w r.config r.labels others
        → map is_drawn outcomes ≡ map is_drawn others
        → drawn_labels outcomes ≡ drawn_labels others }
{}
