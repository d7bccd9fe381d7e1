//! What holds of all bytes, by the definitions alone.
ghost use Rattle.wire_format.specs.Laws.{FieldsHaveNoFault, FieldsJoin, FaultsMove, BytesHaveOneFault, OneFieldStandsAtAFront, BytesAreOneList, ListsAreFields, StayingFaultsStay, LeastVarintsAreVarints, LeastVarintsAreShortest, VarintFieldsAreFields, BytesFieldsAreFields, GroupFieldsAreFields};

/// Bytes that are fields have no fault: a reader that tells one has not met such bytes.
pub fn fields_have_no_fault()
    ensures { FieldsHaveNoFault }
{}

/// Fields may be read one after another: together they are fields, and what follows them has its own fault.
pub fn fields_join()
    ensures fields { FieldsJoin }
    ensures faults { FaultsMove }
{}

/// Bytes have one fault at most, so that a fault that is told is the one.
pub fn bytes_have_one_fault()
    ensures { BytesHaveOneFault }
{}

/// One field at most stands at the front of some bytes, so that a field that is read is the one that was written.
pub fn one_field_stands_at_a_front()
    ensures { OneFieldStandsAtAFront }
{}

/// Bytes are one list of fields at most, and then they are fields.
pub fn bytes_are_one_list()
    ensures one { BytesAreOneList }
    ensures are_fields { ListsAreFields }
{}

/// A fault that no bytes to come can mend is the fault of all longer bytes too.
pub fn staying_faults_stay()
    ensures { StayingFaultsStay }
{}

/// The least varint of a number is one of its varints, and no other one is shorter.
pub fn least_varints_are_shortest()
    ensures are_varints { LeastVarintsAreVarints }
    ensures are_shortest { LeastVarintsAreShortest }
{}

/// What a writer writes is the field that it was given, so that a reader gives it back.
pub fn written_fields_are_fields()
    ensures varints { VarintFieldsAreFields }
    ensures bytes { BytesFieldsAreFields }
    ensures groups { GroupFieldsAreFields }
{}
