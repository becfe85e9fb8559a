//! Tests of extents, streams, records, the streams of a partition and the rows that they keep, by their public calls, over written deliveries.
#![tactic(auto)]

#[cfg(test)]
mod append_tests;
#[cfg(test)]
mod call_tests;
#[cfg(test)]
mod checkpoint_tests;
#[cfg(test)]
mod data_tests;
#[cfg(test)]
mod every_delivery_tests;
#[cfg(test)]
mod examples;
#[cfg(test)]
mod extent_tests;
#[cfg(test)]
mod give_up_tests;
#[cfg(test)]
mod handle_tests;
#[cfg(test)]
mod log_tests;
#[cfg(test)]
mod part_tests;
#[cfg(test)]
mod partition_samples;
#[cfg(test)]
mod partition_share_tests;
#[cfg(test)]
mod plain_stream;
mod put_first;
#[cfg(test)]
mod record_byte_tests;
#[cfg(test)]
mod record_read_tests;
#[cfg(test)]
mod record_row_tests;
#[cfg(test)]
mod record_values;
#[cfg(test)]
mod record_write_tests;
#[cfg(test)]
mod repair_tests;
#[cfg(test)]
mod rewriting_tests;
#[cfg(test)]
mod sample_acts;
#[cfg(test)]
mod sample_fields;
#[cfg(test)]
mod sample_places;
#[cfg(test)]
mod sample_records;
#[cfg(test)]
mod sample_rows;
#[cfg(test)]
mod sample_wires;
#[cfg(test)]
mod stored_answer_tests;
#[cfg(test)]
mod stored_checkpoint_tests;
#[cfg(test)]
mod stored_garbage_tests;
#[cfg(test)]
mod stored_list_tests;
#[cfg(test)]
mod stored_samples;
#[cfg(test)]
mod stored_step_tests;
#[cfg(test)]
mod stored_sweep_samples;
#[cfg(test)]
mod stored_sweep_tests;
#[cfg(test)]
mod stored_tests;
#[cfg(test)]
mod stored_waste_tests;
#[cfg(test)]
mod stream_samples;
#[cfg(test)]
mod stream_share_tests;
#[cfg(test)]
mod sweep_tests;
#[cfg(test)]
mod ticket_tests;
