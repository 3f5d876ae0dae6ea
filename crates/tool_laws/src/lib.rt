//! The laws of the program: what follows from the definitions of its commands alone. A packet file
//! has one reading, an object one encoding, packets one outcome; `decode` undoes `encode`; what
//! `lose` leaves is never decoded wrong; what `upgrade` writes decodes alike; `unframe` undoes
//! `frame`; and a run comes through where nothing fails. A law is the contract of a function that
//! calls other laws and does nothing else. The crate stands on
//! `tool_commands` and `object_file` for what it speaks of.
#![tactic(auto)]

mod laws;

pub use laws::{
    all_packets_give_the_object, chosen_packets_are_decoded, chosen_packets_decode_right,
    codes_are_tried, datagrams_are_run, datagrams_come_back, decode_undoes_encode,
    least_of_a_run_is_never_above_needed, null_words_decide_what_comes_back, objects_are_encoded,
    one_encoding_for_each_object, one_outcome_for_each_file, one_reading_for_each_file,
    one_text_for_each_perf, outcomes_go_by_the_set_of_packets, packet_files_are_decoded,
    packet_files_are_passed, packet_files_have_no_fault, threshold_changes_no_other_column,
    unframe_undoes_frame, what_is_left_is_never_decoded_wrong, what_is_told_is_of_the_file,
    what_is_upgraded_decodes_alike, what_was_encoded_is_decoded,
    what_was_encoded_is_never_decoded_wrong,
};
