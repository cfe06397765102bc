//! What an error cause holds.

use crate::fields::{Fields, Form, Number, walk_numbers};
use crate::held::walk_held;
use crate::lists::{Listed, Unopened};
use crate::names::Level;
use crate::parameters::InnerParameters;
use crate::registered::held_in_cause;
use dcsctp_borrowed::missing_parameters::missing_parameters;
use dcsctp_borrowed::part::Item;
use dcsctp_wire::packet::parameter::RawParameter;
use dcsctp_wire::packet::{
    cookie_received_while_shutting_down, missing_mandatory_parameter_error_cause,
    no_user_data_error_cause, protocol_violation_error_cause, user_initiated_abort_error_cause,
};

/// The causes in a chunk or a parameter.
pub struct Causes;

impl Listed for Causes {
    const KEY: &'static str = "causes";

    const LEVEL: Level = Level::Cause;

    const IS_OPENED: bool = true;

    fn walk_meaning<F: Fields>(cause: &Item<'_>, fields: &mut F) -> bool {
        let (code, value) = (cause.code(), cause.value.bytes);
        match code {
            missing_mandatory_parameter_error_cause::CAUSE_CODE => {
                return walk_missing(cause, fields);
            }
            no_user_data_error_cause::CAUSE_CODE if value.len() == 4 => {
                fields.number(&Number::at(": tsn ", "tsn", cause, 0, 4));
            }
            cookie_received_while_shutting_down::CAUSE_CODE if value.is_empty() => {}
            user_initiated_abort_error_cause::CAUSE_CODE
            | protocol_violation_error_cause::CAUSE_CODE => fields.text_value(value),
            code => {
                let Some(held) = held_in_cause(code) else {
                    return false;
                };
                return walk_held::<InnerParameters, Unopened, F>(&held, cause, fields);
            }
        }
        true
    }
}

/// Hands over the types that a Missing Mandatory Parameter lists.
fn walk_missing<F: Fields>(cause: &Item<'_>, fields: &mut F) -> bool {
    let (typ, value) = (cause.code(), cause.value.bytes);
    let Some(types) = missing_parameters(&RawParameter { typ, value }) else {
        return false;
    };
    let first = Number::read("\n    parameter type ", "parameter", cause, 8, 2);
    let first = first.in_form(Form::Hexadecimal);
    walk_numbers("types", types.count(), first, cause, fields);
    true
}
