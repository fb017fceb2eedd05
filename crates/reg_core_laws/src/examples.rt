ghost use Rattle.reg_core_laws.specs.Examples.{ANewRegisterIsEmpty, TheLongestValidity, ASecondRegisterIsTheSame, NotAfterIsTheLastGoodSecond, TimeMovesTheCounts, TheDeadlineIsInTime, ASecondLaterIsLate, EachCrlListsARevocation, TheLastListingIsPastTheEnd, ALateCrlListsOnce, OneRevocationOfASerialNumber, TheNextCrlIsDue, TheNextCrlIsDueByNextUpdate, EachGroundHasItsLimitAndReason, AFullTableTakesNoMore, ADeclinedRequestStaysSo, EachRefusalHasItsCase, TheClockEnds, TheScheduleGoesByNotBefore};

/// Example days of a register: outcomes of commands, answers to queries, and entries of CRLs. The function does nothing: its contract is the
/// examples. The prover computes each, and rejects one that doesn't agree with the definitions of reg_core.
pub fn worked_examples()
    ensures a_new_register_is_empty { ANewRegisterIsEmpty }
    ensures the_longest_validity { TheLongestValidity }
    ensures a_second_register_is_the_same { ASecondRegisterIsTheSame }
    ensures not_after_is_the_last_good_second { NotAfterIsTheLastGoodSecond }
    ensures time_moves_the_counts { TimeMovesTheCounts }
    ensures the_deadline_is_in_time { TheDeadlineIsInTime }
    ensures a_second_later_is_late { ASecondLaterIsLate }
    ensures each_crl_lists_a_revocation { EachCrlListsARevocation }
    ensures the_last_listing_is_past_the_end { TheLastListingIsPastTheEnd }
    ensures a_late_crl_lists_once { ALateCrlListsOnce }
    ensures one_revocation_of_a_serial_number { OneRevocationOfASerialNumber }
    ensures the_next_crl_is_due { TheNextCrlIsDue }
    ensures the_next_crl_is_due_by_next_update { TheNextCrlIsDueByNextUpdate }
    ensures each_ground_has_its_limit_and_reason { EachGroundHasItsLimitAndReason }
    ensures a_full_table_takes_no_more { AFullTableTakesNoMore }
    ensures a_declined_request_stays_so { ADeclinedRequestStaysSo }
    ensures each_refusal_has_its_case { EachRefusalHasItsCase }
    ensures the_clock_ends { TheClockEnds }
    ensures the_schedule_goes_by_not_before { TheScheduleGoesByNotBefore }
{}
