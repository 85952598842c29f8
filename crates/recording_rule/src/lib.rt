// The ledger of persistent allocations (document 02, order 4), beside the arena's sections: what it holds and what an allocation through it hands back.
// What they mean is in specs/. The words are those of TensorFlow Lite Micro's recording allocator.
#![tactic(auto)]

ghost use Rattle.recording_rule.specs.Kinds.{Names};

use answer::{Answer, Cause};
use arena_sections::Sections;

// What was recorded of one kind: the bytes asked for, the bytes taken with the gaps between them, and how many allocations they were.
#[derive(Clone, Copy, Debug, Default, PartialEq, Eq)]
pub struct RecordedAllocation {
    pub requested: u32,
    pub used: u32,
    pub count: u32,
}

// What was recorded of each kind, by its code.
#[derive(Clone, Copy, Debug, PartialEq, Eq)]
pub struct Ledger {
    pub kinds: [RecordedAllocation; 6],
}

// The kinds, in the order of their codes, by the names that TensorFlow Lite Micro prints.
#[derive(Clone, Copy, Debug, PartialEq, Eq)]
pub enum Kind {
    // 'TfLiteEvalTensor data'
    TfliteEvalTensorData,

    // 'Persistent TfLiteTensor data'
    PersistentTfliteTensorData,

    // 'Persistent TfLiteTensor quantization data'
    PersistentTfliteTensorQuantizationData,

    // 'TfLiteTensor variable buffer data'
    TfliteTensorVariableBufferData,

    // 'NodeAndRegistration struct'
    NodeAndRegistrationStruct,

    // 'Operator runtime data'
    OperatorRuntimeData,
}

// The kind that a code names, or the refusal of a code that names none.
impl TryFrom<u32> for Kind {
    type Error = Cause;

    ghost try_from_gives = { Names };

    fn try_from(code: u32) -> Result<Kind, Cause> {
        match code {
            0 => Ok(Kind::TfliteEvalTensorData),
            1 => Ok(Kind::PersistentTfliteTensorData),
            2 => Ok(Kind::PersistentTfliteTensorQuantizationData),
            3 => Ok(Kind::TfliteTensorVariableBufferData),
            4 => Ok(Kind::NodeAndRegistrationStruct),
            5 => Ok(Kind::OperatorRuntimeData),
            _ => Err(Cause::BadAllocationKind),
        }
    }
}

// The codes of the kinds. They are numbers, since `arena_recording::allocate_persistent` and `ledger_entries::of_kind` take any code: one that names no kind
// is answered there, by number 25 or by nothing recorded.
impl Ledger {
    pub const TFLITE_EVAL_TENSOR_DATA: u32 = Kind::TfliteEvalTensorData as u32;

    pub const PERSISTENT_TFLITE_TENSOR_DATA: u32 = Kind::PersistentTfliteTensorData as u32;

    pub const PERSISTENT_TFLITE_TENSOR_QUANTIZATION_DATA: u32 =
        Kind::PersistentTfliteTensorQuantizationData as u32;

    pub const TFLITE_TENSOR_VARIABLE_BUFFER_DATA: u32 = Kind::TfliteTensorVariableBufferData as u32;

    pub const NODE_AND_REGISTRATION_STRUCT: u32 = Kind::NodeAndRegistrationStruct as u32;

    pub const OPERATOR_RUNTIME_DATA: u32 = Kind::OperatorRuntimeData as u32;

    // So many kinds there are.
    pub const KINDS: u32 = 6;

    // A kind takes this many allocations.
    pub const GREATEST_COUNT: u32 = 65535;
}

// A recorded allocation's answer, with the next state and the next ledger.
#[derive(Clone, Copy, Debug, PartialEq, Eq)]
pub struct Recording {
    pub answer: Answer,
    pub sections: Sections,
    pub ledger: Ledger,
}
