// Laws over the definitions alone.
ghost use Rattle.tool_laws.specs.FrameLaws.{DatagramsAreRun, DatagramsComeBack};
ghost use Rattle.tool_laws.specs.FrameLaws.{UnframeUndoesFrame};
ghost use Rattle.tool_laws.specs.Laws.{DecodingIsOne, EncodingIsOne, PacketFileHasNoFault};
ghost use Rattle.tool_laws.specs.Laws.{PacketFileIsOne};
ghost use Rattle.tool_laws.specs.LossLaws.{LossLeavesPacketFile, LostIsNeverDecodedWrong};
ghost use Rattle.tool_laws.specs.PerfLaws.{CodeIsTried, LeastIsNeverAboveNeeded};
ghost use Rattle.tool_laws.specs.PerfLaws.{LeastIsNoneWhereUndetermined, PerfIsOne};
ghost use Rattle.tool_laws.specs.PerfLaws.{ThresholdChangesNoOtherColumn};
ghost use Rattle.tool_laws.specs.RoundTrip.{ChosenDecodeRight, ChosenDecodeWithoutNullWords};
ghost use Rattle.tool_laws.specs.RoundTrip.{DecodeUndoesEncode, GivenBackByAll};
ghost use Rattle.tool_laws.specs.RoundTrip.{GivenBackWithoutNullWords, NeverDecodedWrong};
ghost use Rattle.tool_laws.specs.RoundTrip.{NeverToldWrong, OutcomesGoBySet};
ghost use Rattle.tool_laws.specs.RunLaws.{ChosenAreDecoded, EncodedIsDecoded, ObjectIsEncoded};
ghost use Rattle.tool_laws.specs.RunLaws.{PacketFileIsDecoded, PacketFileIsPassed};
ghost use Rattle.tool_laws.specs.UpgradeLaws.{UpgradeDecodesAlike, UpgradeWritesPacketFile};

use datagram_pass::datagrams_are_passed;
use loss_runs::{
    each_run_has_a_result, least_is_never_above_needed, threshold_changes_nothing_else,
};
use null_witness::{null_words_follow_the_closure, null_words_show_what_is_open};
use packet_file::{files_have_one_fault, headers_and_packets_have_one_spelling};
use peeling::closure_is_least;
use sparse_rows::null_words_hold_a_source_symbol;

/// Bytes have at most one reading as a packet file: one header and one list of packets.
pub fn one_reading_for_each_file()
    ensures { PacketFileIsOne }
{
    headers_and_packets_have_one_spelling();
}

/// The bytes of a packet file have no fault: its header isn't refused, and behind any of its
/// packets no further one is.
pub fn packet_files_have_no_fault()
    ensures { PacketFileHasNoFault }
{
    files_have_one_fault();
    headers_and_packets_have_one_spelling();
}

/// By a given header an object has at most one packet file and one report.
pub fn one_encoding_for_each_object()
    ensures { EncodingIsOne }
{}

/// The bytes of an input decode in one way at most: to one outcome of each block, one object and
/// one report, whatever the limits of draws and packets are. Also the bytes that are left are the
/// same, and the places that are told of; and the symbols that are told, unless some block is
/// contradicted, since then nothing fixes their bytes.
pub fn one_outcome_for_each_file()
    ensures { DecodingIsOne }
{
    headers_and_packets_have_one_spelling();
}

/// Neither the order of packets nor repeats matter: packets that are the same as a set let each
/// block come out alike, also where no encoder made them.
pub fn outcomes_go_by_the_set_of_packets()
    ensures { OutcomesGoBySet }
{}

/// What was encoded is never decoded wrong. Of the packets of an object's file any may come, in any
/// order and with repeats: no block is contradicted, and each block that has a source has that of
/// the object. So the outcomes give the object, cut to its length, or some block is undetermined.
/// That the packets are of the file is all that is assumed of them.
pub fn what_was_encoded_is_never_decoded_wrong()
    ensures { NeverDecodedWrong }
{
    headers_and_packets_have_one_spelling();
}

/// The outcomes give the object exactly where in no block the positions that came have a null word:
/// so a sender knows which losses cost the object, whatever its bytes are.
pub fn null_words_decide_what_comes_back()
    ensures { GivenBackWithoutNullWords }
{
    headers_and_packets_have_one_spelling();
    null_words_show_what_is_open();
}

/// All packets of an object's file give the object, in any order and with repeats: the closure of
/// what came holds the source of each block, so that no elimination is needed.
pub fn all_packets_give_the_object()
    ensures { GivenBackByAll }
{
    headers_and_packets_have_one_spelling();
    closure_is_least();
    null_words_follow_the_closure();
    null_words_hold_a_source_symbol();
}

/// What is told as packets of an object's file come is never wrong: each symbol is one of the
/// file's.
pub fn what_is_told_is_of_the_file()
    ensures { NeverToldWrong }
{
    headers_and_packets_have_one_spelling();
}

/// A `decode` of packets of an object's file, any of them, in any order and with repeats, gives the
/// object or leaves some block undetermined; and it gives the object exactly where in no block the
/// positions that came have a null word, also where it stops early.
pub fn chosen_packets_decode_right()
    ensures right { ChosenDecodeRight }
    ensures exactly { ChosenDecodeWithoutNullWords }
{
    headers_and_packets_have_one_spelling();
    null_words_show_what_is_open();
    null_words_follow_the_closure();
    null_words_hold_a_source_symbol();
}

/// `decode` undoes `encode`: the packet file of an object decodes to the object, each block by
/// peeling, also where `decode` stops early. The limits of draws may differ.
pub fn decode_undoes_encode()
    ensures { DecodeUndoesEncode }
{
    headers_and_packets_have_one_spelling();
    closure_is_least();
    null_words_follow_the_closure();
    null_words_hold_a_source_symbol();
}

/// An `encode` of an object refuses nothing, within the limits and where nothing outside fails: the
/// packet file of the object is written, or memory lacks.
pub fn objects_are_encoded()
    ensures { ObjectIsEncoded }
{}

/// A `decode` of a packet file refuses nothing, within the limits and where nothing outside fails:
/// its blocks come out by its packets, or memory lacks.
pub fn packet_files_are_decoded()
    ensures { PacketFileIsDecoded }
{
    files_have_one_fault();
    headers_and_packets_have_one_spelling();
}

/// A `decode` of packets of an object's file, any of them, in any order and with repeats, within
/// the limits and where nothing outside fails: it writes the object exactly where in no block the
/// positions that came have a null word, and ends as undetermined where some have one; or memory
/// lacks.
pub fn chosen_packets_are_decoded()
    ensures { ChosenAreDecoded }
{
    files_have_one_fault();
    headers_and_packets_have_one_spelling();
    null_words_show_what_is_open();
    null_words_follow_the_closure();
    null_words_hold_a_source_symbol();
}

/// Of the file that an `encode` wrote a `decode` writes the object that was read, within the limits
/// and where nothing outside fails; or memory lacks.
pub fn what_was_encoded_is_decoded()
    ensures { EncodedIsDecoded }
{
    files_have_one_fault();
    headers_and_packets_have_one_spelling();
    closure_is_least();
    null_words_follow_the_closure();
    null_words_hold_a_source_symbol();
}

/// A `lose`, a `show` or an `upgrade` of a packet file refuses nothing, within the limits and where
/// nothing outside fails, and an `upgrade` where the padding of its packets is zero: the text of
/// its header and of its packets is written and reported; or memory lacks.
pub fn packet_files_are_passed()
    ensures { PacketFileIsPassed }
{
    files_have_one_fault();
    headers_and_packets_have_one_spelling();
}

/// The options of a `perf` decide its lines: which symbols its runs keep, how each of them ends,
/// and so the text.
pub fn one_text_for_each_perf()
    ensures { PerfIsOne }
{
    each_run_has_a_result();
}

/// The least number of packets that a run of a `perf` tells is never above the number that peeling
/// needed, and is none exactly where the run is undetermined.
pub fn least_of_a_run_is_never_above_needed()
    ensures within { LeastIsNeverAboveNeeded }
    ensures none { LeastIsNoneWhereUndetermined }
{
    least_is_never_above_needed();
}

/// Whether a `perf` tells the least number of packets changes no other column of its runs' lines.
pub fn threshold_changes_no_other_column()
    ensures { ThresholdChangesNoOtherColumn }
{
    threshold_changes_nothing_else();
}

/// A `perf` whose block is within the limit, and whose matrix takes no more draws than it may,
/// refuses nothing where nothing outside fails: the lines of its runs are written; or memory lacks.
pub fn codes_are_tried()
    ensures { CodeIsTried }
{}

/// What a `lose` writes is a packet file of the same header, whose packets are among those that it
/// read. So what was encoded and then lost in part is never decoded wrong: the object is written,
/// or some block is undetermined, or memory lacks.
pub fn what_is_left_is_never_decoded_wrong()
    ensures left { LossLeavesPacketFile }
    ensures decoded { LostIsNeverDecodedWrong }
{
    files_have_one_fault();
    headers_and_packets_have_one_spelling();
    null_words_follow_the_closure();
    null_words_hold_a_source_symbol();
    null_words_show_what_is_open();
}

/// What an `upgrade` writes is the packet file of version 2 with the packets of the file that it
/// read, one by one. So `decode` of it comes to the same as of that file: each block comes out
/// alike, the object and the report are the same, and so are the places that are told of.
pub fn what_is_upgraded_decodes_alike()
    ensures upgraded { UpgradeWritesPacketFile }
    ensures decoded { UpgradeDecodesAlike }
{
    headers_and_packets_have_one_spelling();
}

/// A `frame` of a stream of datagrams, and an `unframe` of their frames, refuses nothing, within the
/// limits and where nothing outside fails: what goes for the datagrams is written, and their number
/// is reported; or memory lacks.
pub fn datagrams_are_run()
    ensures { DatagramsAreRun }
{
    datagrams_are_passed();
}

/// `unframe` undoes `frame`: of the frames that a `frame` wrote it writes the stream that was read,
/// where nothing outside fails; or memory lacks.
pub fn unframe_undoes_frame()
    ensures { UnframeUndoesFrame }
{
    datagrams_are_passed();
}

/// Frames are an object like any other: of packets by which a `decode` of their packet file comes
/// to its end, an `unframe` of its output gives the stream of datagrams back.
pub fn datagrams_come_back()
    ensures { DatagramsComeBack }
{
    unframe_undoes_frame();
    chosen_packets_are_decoded();
}
