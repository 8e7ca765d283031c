//! The values of numbers, days and what may be missing.

ghost use Rattle.json.specs.Json.{boolean};
ghost use Rattle.report_json.specs.Times.{day_value};
ghost use Rattle.report_json.specs.Values.{amount, or_null};

use crate::to_json::ToJson;
use crate::writer::JsonWriter;
use court_clock::Day;
use court_days::Court;
use report_texts::Labels;
use std::alloc::AllocError;

impl ToJson for u32 {
    ghost value = { λ court named n. amount n };

    fn write(
        &self,
        out: &mut JsonWriter,
        _court: &Court,
        _labels: &Labels<'_>,
    ) -> Result<(), AllocError> {
        out.number(u64::from(*self))
    }
}

impl ToJson for u64 {
    ghost value = { λ court named n. amount n };

    fn write(
        &self,
        out: &mut JsonWriter,
        _court: &Court,
        _labels: &Labels<'_>,
    ) -> Result<(), AllocError> {
        out.number(*self)
    }
}

impl ToJson for bool {
    ghost value = { λ court named truth. boolean truth };

    fn write(
        &self,
        out: &mut JsonWriter,
        _court: &Court,
        _labels: &Labels<'_>,
    ) -> Result<(), AllocError> {
        out.boolean(*self)
    }
}

impl ToJson for Day {
    ghost value = { λ court named day. day_value day };

    fn write(
        &self,
        out: &mut JsonWriter,
        _court: &Court,
        _labels: &Labels<'_>,
    ) -> Result<(), AllocError> {
        out.day(*self)
    }
}

/// What is missing is `null`.
impl<T: ToJson> ToJson for Option<T> {
    ghost value = { λ court named item. or_null (T.value court named) item };

    fn write(
        &self,
        out: &mut JsonWriter,
        court: &Court,
        labels: &Labels<'_>,
    ) -> Result<(), AllocError> {
        match self {
            Some(item) => item.write(out, court, labels),
            None => out.null(),
        }
    }
}
