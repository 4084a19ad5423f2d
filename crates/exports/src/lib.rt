// The C boundary: one thin call for each public call of the layers, but for small ones that they alone make. What crosses
// is numbers, slices and #[repr(C)] structs of them; an enum is laid out as numbers. bindings/raspteal.h says what each
// function does. C hands over each argument by itself: what several calls take together (index and text, buttons and
// axes, a raw value's two numbers) is no struct there.
#![tactic(auto)]

mod build_calls;
mod data_calls;
mod flat;
mod flat_data;
mod flat_mapping;
mod flat_party;
mod flat_token;
mod line_calls;
mod list_calls;
mod mapping_calls;
mod near_calls;
mod pad_calls;
mod parser_calls;
mod share_calls;
mod state_calls;
mod store_calls;
mod text_calls;
mod two_calls;
mod walk_calls;
