//! The laws of the texts: each can be called.

#[test]
fn laws_hold() {
    blk_records::laws::commands();
    blk_records::laws::certificates();
    blk_records::laws::on_time_certificates();
    blk_records::laws::certificates_of_both_forms();
    blk_records::laws::schedules();
    blk_text::laws::scripts();
    blk_text::laws::traces();
    blk_records::laws::words_of_certificates();
    blk_records::laws::words_of_on_time_certificates();
    blk_text::laws::words_of_scripts_and_traces();
    blk_text::laws::words_of_scripts();
    blk_text::laws::words_of_traces();
    blk_text::laws::versions_of_rows();
    blk_text::laws::fields_of_scripts();
    blk_text::laws::fields_of_traces();
    blk_records::laws::names_of_lists();
    blk_records::laws::wordless_rows();
    blk_text::laws::names_of_both();
    blk_text::laws::names_of_scripts();
    blk_text::laws::names_of_traces();
    blk_text::laws::law_of_limits();
}
