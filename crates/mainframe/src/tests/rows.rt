//! What is typed into `run`, and what comes back.

use super::check;
use std::test::Fail;

#[test]
fn a_conflict_is_queued(rt: HostRuntime) -> Result<(), Fail> {
    check(
        &rt,
        rt.alloc(),
        None,
        b"ROUT:CLOS (@1!1,3!1)\nSYST:ERR?\nROUT:CLOS:STAT?\n",
        b"-221,\"Settings conflict\"\n(@)\n",
    )
}

#[test]
fn errors_are_queued_in_order(rt: HostRuntime) -> Result<(), Fail> {
    check(
        &rt,
        rt.alloc(),
        None,
        b"ROUT:CLOS (@5!1);CLOS (@9!1);CLOS (@1!0);:SYST:ERR:ALL?\n",
        b"-241,\"Hardware missing\",-241,\"Hardware missing\",-222,\"Data out of range\"\n",
    )
}

#[test]
fn long_forms_and_plain_numbers(rt: HostRuntime) -> Result<(), Fail> {
    check(
        &rt,
        rt.alloc(),
        None,
        b"rout:close (@2!3,2!1,202)\n:ROUTE:CLOSE:STATE?\n",
        b"(@2!1,2!2,2!3)\n",
    )
}

#[test]
fn a_range_downwards(rt: HostRuntime) -> Result<(), Fail> {
    check(
        &rt,
        rt.alloc(),
        None,
        b"ROUT:CLOS (@2!3:2!1);CLOS:STAT?\n",
        b"(@2!1,2!2,2!3)\n",
    )
}

#[test]
fn an_execution_error_drops_its_unit_alone(rt: HostRuntime) -> Result<(), Fail> {
    check(
        &rt,
        rt.alloc(),
        None,
        b"ROUT:CLOS (@5!1);:ROUT:CLOS:STAT?\n",
        b"(@)\n",
    )
}

#[test]
fn a_command_error_drops_the_rest(rt: HostRuntime) -> Result<(), Fail> {
    check(&rt, rt.alloc(), None, b"FOO;*IDN?\n", b"")
}

#[test]
fn a_scan_list_keeps_its_order(rt: HostRuntime) -> Result<(), Fail> {
    check(
        &rt,
        rt.alloc(),
        None,
        b"ROUT:SCAN (@1!5:1!3);SCAN?\n",
        b"(@1!5,1!4,1!3)\n",
    )
}

#[test]
fn a_scan_list_is_judged(rt: HostRuntime) -> Result<(), Fail> {
    check(
        &rt,
        rt.alloc(),
        None,
        b"ROUT:SCAN (@1!1:2!2)\nROUT:SCAN (@)\n\
          ROUT:SCAN (@1!1:1!99,1!1:1!99,1!1:1!99,1!1:1!99,1!1:1!99,1!1:1!18)\nSYST:ERR:ALL?\n\
          ROUT:SCAN (@1!1:1!99,1!1:1!99,1!1:1!99,1!1:1!99,1!1:1!99,1!1:1!17);:SYST:ERR?\n",
        b"-222,\"Data out of range\",-171,\"Invalid expression\",-223,\"Too much data\"\n0,\"No error\"\n",
    )
}

#[test]
fn scans_that_may_not_begin(rt: HostRuntime) -> Result<(), Fail> {
    check(
        &rt,
        rt.alloc(),
        None,
        b"INIT\nSYST:ERR?\nROUT:SCAN (@1!1);SCAN:MET 2;:INIT\nSYST:ERR?\n\
          ROUT:SCAN:MET 4;:ROUT:CLOS (@3!2);:INIT\nSYST:ERR?\nROUT:OPEN:ALL;:INIT;*OPC?\n",
        b"-221,\"Settings conflict\"\n-241,\"Hardware missing\"\n-221,\"Settings conflict\"\n1\n",
    )
}

#[test]
fn a_scan_of_three_readings(rt: HostRuntime) -> Result<(), Fail> {
    check(
        &rt,
        rt.alloc(),
        None,
        b"ROUT:SCAN (@1!1,1!2);:TRIG:COUN 3;:INIT;*OPC?;:FETC?\n",
        b"1;1.000000000,1.000000001,1.000000002\n",
    )
}

#[test]
fn a_scan_that_the_bus_triggers(rt: HostRuntime) -> Result<(), Fail> {
    check(
        &rt,
        rt.alloc(),
        None,
        b"ROUT:SCAN (@1!1);:ARM:COUN 2;SOUR BUS;:TRIG:COUN 3;DEL 0.5;:DIAG:SCAN:BOUN?\nINIT\n*TRG\n\
          TRAC:POIN:ACT?;:STAT:OPER:COND?\n*TRG\nTRAC:POIN:ACT?;:STAT:OPER:COND?\n",
        b"14\n3;64\n6;0\n",
    )
}

#[test]
fn more_readings_than_points(rt: HostRuntime) -> Result<(), Fail> {
    check(
        &rt,
        rt.alloc(),
        None,
        b"ROUT:SCAN (@1!1);:ARM:COUN 2;SOUR BUS;:TRIG:COUN 3;DEL 0.5;:DIAG:SCAN:BOUN?\n\
          TRAC:POIN 5;:INIT;:SYST:ERR?\nTRAC:POIN 6;:INIT;:SYST:ERR?\n",
        b"14\n-221,\"Settings conflict\"\n0,\"No error\"\n",
    )
}

#[test]
fn happenings_that_no_scan_takes(rt: HostRuntime) -> Result<(), Fail> {
    check(
        &rt,
        rt.alloc(),
        None,
        b"*TRG;:SYST:ERR?\nROUT:SCAN (@1!1);:TRIG:SOUR BUS;:INIT;:INIT;:SYST:ERR?\nARM:SIGN;:SYST:ERR?\n",
        b"-211,\"Trigger ignored\"\n-213,\"Init ignored\"\n-212,\"Arm ignored\"\n",
    )
}

#[test]
fn a_meter_that_is_out(rt: HostRuntime) -> Result<(), Fail> {
    check(
        &rt,
        rt.alloc(),
        None,
        b"ROUT:SCAN (@1!1);:INIT;:ABOR;:INIT;:SYST:ERR?\nTRAC:POIN:ACT?\nINIT;*OPC?;:FETC?\n",
        b"-221,\"Settings conflict\"\n0\n1;1.000000001\n",
    )
}

#[test]
fn a_failed_closing_is_told(rt: HostRuntime) -> Result<(), Fail> {
    check(
        &rt,
        rt.alloc(),
        Some(2),
        b"ROUT:CLOS (@1!1);OPEN (@1!1);CLOS (@1!2);:SYST:ERR?\nROUT:CLOS:STAT?\nSTAT:QUES?;QUES?;QUES:COND?\n",
        b"-240,\"Hardware error\"\n(@)\n512;0;512\n",
    )
}

#[test]
fn entries_that_a_scan_does_not_use(rt: HostRuntime) -> Result<(), Fail> {
    check(
        &rt,
        rt.alloc(),
        None,
        b"ROUT:SCAN (@1!1,5!1);:INIT;*OPC?\nTRIG:COUN 2;:INIT;:SYST:ERR?\n",
        b"1\n-241,\"Hardware missing\"\n",
    )
}

#[test]
fn macros_are_defined_called_and_told(rt: HostRuntime) -> Result<(), Fail> {
    check(
        &rt,
        rt.alloc(),
        None,
        b"*DMC \"A\",#15A;A;A\n*EMC 1;A\nSYST:ERR?;*GMC? \"A\";*LMC?\n*DMC \"B\",#213ROUT:CLOS? $1\n\
          B (@1!1)\nB\n*DMC \"B\",#11X\n*RMC \"C\"\nSYST:ERR:ALL?\n",
        b"-276,\"Macro recursion error\";#15A;A;A;\"A\"\n0\n\
          -274,\"Macro parameter error\",-277,\"Macro redefinition not allowed\",-278,\"Macro header not found\"\n",
    )
}

#[test]
fn status_registers(rt: HostRuntime) -> Result<(), Fail> {
    check(
        &rt,
        rt.alloc(),
        None,
        b"*ESR?;*ESR?;*SRE 255;*SRE?\nFOO;*IDN?\n*STB?;*CLS;*STB?\n",
        b"128;0;191\n68;80\n",
    )
}

#[test]
fn settings_of_a_layer(rt: HostRuntime) -> Result<(), Fail> {
    check(
        &rt,
        rt.alloc(),
        None,
        b"TRIG:DEL 1.0000005;DEL?;DEL 500 MS;DEL?\nTRIG:COUN 2.5;COUN?;COUN 100000;COUN?\n\
          TRIG:COUN 100001;COUN 0;:SYST:ERR:COUN?\nTRIG:COUN 1E99999\nSYST:ERR:ALL?\n",
        b"1.000001;0.500000\n3;100000\n2\n\
          -222,\"Data out of range\",-222,\"Data out of range\",-123,\"Exponent too large\"\n",
    )
}

#[test]
fn a_wait_that_is_given_up(rt: HostRuntime) -> Result<(), Fail> {
    check(
        &rt,
        rt.alloc(),
        None,
        b"FETC?;:SYST:ERR?\nROUT:SCAN (@1!1);:TRIG:SOUR BUS;:INIT\n*WAI;:SYST:ERR?\n",
        b"-230,\"Data corrupt or stale\"\n-221,\"Settings conflict\"\n",
    )
}

#[test]
fn a_full_error_queue(rt: HostRuntime) -> Result<(), Fail> {
    check(
        &rt,
        rt.alloc(),
        None,
        b"FOO\nFOO\nFOO\nFOO\nFOO\nFOO\nFOO\nFOO\nFOO\nFOO\nFOO\nFOO\nFOO\nFOO\nFOO\nFOO\nFOO\nFOO\n\
          FOO\nFOO\nFOO\nFOO\nFOO\nFOO\nFOO\nFOO\nFOO\nFOO\nFOO\nFOO\nFOO\nFOO\nFOO\nSYST:ERR:COUN?\n\
          SYST:ERR?\nSYST:ERR?\nSYST:ERR?\nSYST:ERR?\nSYST:ERR?\nSYST:ERR?\nSYST:ERR?\nSYST:ERR?\n\
          SYST:ERR?\nSYST:ERR?\nSYST:ERR?\nSYST:ERR?\nSYST:ERR?\nSYST:ERR?\nSYST:ERR?\nSYST:ERR?\n\
          SYST:ERR?\nSYST:ERR?\nSYST:ERR?\nSYST:ERR?\nSYST:ERR?\nSYST:ERR?\nSYST:ERR?\nSYST:ERR?\n\
          SYST:ERR?\nSYST:ERR?\nSYST:ERR?\nSYST:ERR?\nSYST:ERR?\nSYST:ERR?\nSYST:ERR?\n\
          SYST:ERR?;ERR?\n",
        b"32\n-113,\"Undefined header\"\n-113,\"Undefined header\"\n-113,\"Undefined header\"\n\
          -113,\"Undefined header\"\n-113,\"Undefined header\"\n-113,\"Undefined header\"\n\
          -113,\"Undefined header\"\n-113,\"Undefined header\"\n-113,\"Undefined header\"\n\
          -113,\"Undefined header\"\n-113,\"Undefined header\"\n-113,\"Undefined header\"\n\
          -113,\"Undefined header\"\n-113,\"Undefined header\"\n-113,\"Undefined header\"\n\
          -113,\"Undefined header\"\n-113,\"Undefined header\"\n-113,\"Undefined header\"\n\
          -113,\"Undefined header\"\n-113,\"Undefined header\"\n-113,\"Undefined header\"\n\
          -113,\"Undefined header\"\n-113,\"Undefined header\"\n-113,\"Undefined header\"\n\
          -113,\"Undefined header\"\n-113,\"Undefined header\"\n-113,\"Undefined header\"\n\
          -113,\"Undefined header\"\n-113,\"Undefined header\"\n-113,\"Undefined header\"\n\
          -113,\"Undefined header\"\n-350,\"Queue overflow\";0,\"No error\"\n",
    )
}

#[test]
fn numbers_are_rounded_and_judged(rt: HostRuntime) -> Result<(), Fail> {
    check(
        &rt,
        rt.alloc(),
        None,
        b"*ESE 2.5;*ESE?;*ESE -0.4;*ESE?\n*ESE 256;*ESE -0.5;:SYST:ERR:ALL?\n*ESE 1E99999\n\
          SYST:ERR?\n*ESE 1 E +1;*ESE?\n*ESE 1 S\nSYST:ERR?\n",
        b"3;0\n-222,\"Data out of range\",-222,\"Data out of range\"\n-123,\"Exponent too large\"\n\
          10\n-138,\"Suffix not allowed\"\n",
    )
}

#[test]
fn an_event_that_is_enabled(rt: HostRuntime) -> Result<(), Fail> {
    check(
        &rt,
        rt.alloc(),
        None,
        b"*ESE 32;FOO\n*STB?;*ESR?\n",
        b"36;160\n",
    )
}

#[test]
fn eight_levels_of_macros(rt: HostRuntime) -> Result<(), Fail> {
    check(
        &rt,
        rt.alloc(),
        None,
        b"*DMC \"M1\",#12M2;*DMC \"M2\",#12M3;*DMC \"M3\",#12M4\n\
          *DMC \"M4\",#12M5;*DMC \"M5\",#12M6;*DMC \"M6\",#12M7\n\
          *DMC \"M7\",#12M8;*DMC \"M8\",#12M9;*DMC \"M9\",#15*IDN?\n*EMC 1\nM1\nSYST:ERR?\nM2\n",
        b"-276,\"Macro recursion error\"\nOPENBENCH,SWM8,0,1.0\n",
    )
}

#[test]
fn macros_are_switched(rt: HostRuntime) -> Result<(), Fail> {
    check(
        &rt,
        rt.alloc(),
        None,
        b"*DMC \"A\",#15*IDN?\nA\n*EMC 1;A\n*RST;*EMC?\n*EMC -2;*EMC?;*EMC 0.4;*EMC?\n*LMC?\n\
          *DMC \"1A\",#11X\nSYST:ERR:ALL?\n",
        b"OPENBENCH,SWM8,0,1.0\n0\n1;0\n\"A\"\n-113,\"Undefined header\",-273,\"Illegal macro label\"\n",
    )
}

#[test]
fn a_closing_fails_in_a_scan(rt: HostRuntime) -> Result<(), Fail> {
    check(
        &rt,
        rt.alloc(),
        Some(2),
        b"ROUT:SCAN (@1!1,1!2);:TRIG:COUN 3;:INIT;*OPC?;:FETC?\n\
          SYST:ERR?;:STAT:QUES:COND?;:ROUT:CLOS:STAT?\nINIT;*OPC?;:FETC?\nSTAT:QUES:COND?\n",
        b"1;1.000000000\n-240,\"Hardware error\";512;(@)\n1;1.000000001,1.000000002,1.000000003\n0\n",
    )
}

#[test]
fn a_65th_macro_is_too_much(rt: HostRuntime) -> Result<(), Fail> {
    check(
        &rt,
        rt.alloc(),
        None,
        b"*DMC 'AA',#10;*DMC 'AB',#10;*DMC 'AC',#10;*DMC 'AD',#10;*DMC 'AE',#10;*DMC 'AF',#10;*DMC 'AG',#10;\
          *DMC 'AH',#10;*DMC 'AI',#10;*DMC 'AJ',#10;*DMC 'AK',#10;*DMC 'AL',#10;*DMC 'AM',#10;*DMC 'AN',#10;\
          *DMC 'AO',#10;*DMC 'AP',#10;*DMC 'AQ',#10;*DMC 'AR',#10;*DMC 'AS',#10;*DMC 'AT',#10;*DMC 'AU',#10;\
          *DMC 'AV',#10;*DMC 'AW',#10;*DMC 'AX',#10;*DMC 'AY',#10;*DMC 'AZ',#10;*DMC 'BA',#10;*DMC 'BB',#10;\
          *DMC 'BC',#10;*DMC 'BD',#10;*DMC 'BE',#10;*DMC 'BF',#10;*DMC 'BG',#10;*DMC 'BH',#10;*DMC 'BI',#10;\
          *DMC 'BJ',#10;*DMC 'BK',#10;*DMC 'BL',#10;*DMC 'BM',#10;*DMC 'BN',#10;*DMC 'BO',#10;*DMC 'BP',#10;\
          *DMC 'BQ',#10;*DMC 'BR',#10;*DMC 'BS',#10;*DMC 'BT',#10;*DMC 'BU',#10;*DMC 'BV',#10;*DMC 'BW',#10;\
          *DMC 'BX',#10;*DMC 'BY',#10;*DMC 'BZ',#10;*DMC 'CA',#10;*DMC 'CB',#10;*DMC 'CC',#10;*DMC 'CD',#10;\
          *DMC 'CE',#10;*DMC 'CF',#10;*DMC 'CG',#10;*DMC 'CH',#10;*DMC 'CI',#10;*DMC 'CJ',#10;*DMC 'CK',#10;\
          *DMC 'CL',#10;*DMC 'CM',#10;SYST:ERR:ALL?\n",
        b"-223,\"Too much data\"\n",
    )
}

#[test]
fn positions_keep_their_order(rt: HostRuntime) -> Result<(), Fail> {
    check(
        &rt,
        rt.alloc(),
        None,
        b"ROUT:SCAN (@1!1&2!1,2!3:2!2);SCAN?\n",
        b"(@1!1&2!1,2!3,2!2)\n",
    )
}

#[test]
fn a_scan_of_one_position(rt: HostRuntime) -> Result<(), Fail> {
    check(
        &rt,
        rt.alloc(),
        None,
        b"ROUT:SCAN (@1!1&2!1);:DIAG:SCAN:BOUN?;:INIT;:ROUT:CLOS:STAT?\nROUT:CLOS:STAT?;:FETC?\n",
        b"1;(@1!1,2!1)\n(@);1.000000000\n",
    )
}

#[test]
fn a_position_that_would_join_its_channels(rt: HostRuntime) -> Result<(), Fail> {
    check(
        &rt,
        rt.alloc(),
        None,
        b"ROUT:SCAN (@1!1&3!1);:INIT;:SYST:ERR?\n",
        b"-221,\"Settings conflict\"\n",
    )
}

#[test]
fn positions_that_are_refused(rt: HostRuntime) -> Result<(), Fail> {
    check(
        &rt,
        rt.alloc(),
        None,
        b"ROUT:SCAN (@1!1&1!1)\nROUT:SCAN (@1!1&1!2&1!3&1!4&1!5)\nROUT:SCAN (@1!1&1!2:1!3)\n\
ROUT:CLOS (@1!1&2!1)\nSYST:ERR:ALL?\n",
        b"-222,\"Data out of range\",-223,\"Too much data\",-171,\"Invalid expression\",\
-171,\"Invalid expression\"\n",
    )
}

#[test]
fn a_closing_fails_in_a_position(rt: HostRuntime) -> Result<(), Fail> {
    check(
        &rt,
        rt.alloc(),
        Some(1),
        b"ROUT:SCAN (@2!1&1!1);:INIT;:SYST:ERR?;:ROUT:CLOS:STAT?\n",
        b"-240,\"Hardware error\";(@)\n",
    )
}

#[test]
fn a_scan_that_a_timer_paces(rt: HostRuntime) -> Result<(), Fail> {
    check(
        &rt,
        rt.alloc(),
        None,
        b"ROUT:SCAN (@1!1);:TRIG:COUN 3;SOUR TIM;TIM 0.25;SOUR?;TIM?;:DIAG:SCAN:BOUN?\n\
          INIT;:STAT:OPER:COND?\nFETC?\nINIT;:TRIG:SIGN;:STAT:OPER:COND?\n",
        b"TIM;0.250000;6\n32\n1.000000000,1.000000001,1.000000002\n16\n",
    )
}

#[test]
fn a_third_arm_layer_and_no_fourth(rt: HostRuntime) -> Result<(), Fail> {
    check(
        &rt,
        rt.alloc(),
        None,
        b"ARM:LAY3:COUN 1000;COUN?\nARM:LAY4:COUN 2\nTRIG:TIM 0.0000004\nSYST:ERR:ALL?\n",
        b"1000\n-114,\"Header suffix out of range\",-222,\"Data out of range\"\n",
    )
}

#[test]
fn a_channel_of_slot_16_and_none_of_slot_17(rt: HostRuntime) -> Result<(), Fail> {
    check(
        &rt,
        rt.alloc(),
        None,
        b"ROUT:CLOS (@1601);CLOS (@17!1);:SYST:ERR:ALL?\n",
        b"-241,\"Hardware missing\",-222,\"Data out of range\"\n",
    )
}

#[test]
fn the_longest_scan_is_bounded(rt: HostRuntime) -> Result<(), Fail> {
    check(
        &rt,
        rt.alloc(),
        None,
        b"ROUT:SCAN (@1!1);:ARM:COUN 1000;SOUR BUS;DEL 1\nARM:LAY2:COUN 1000;SOUR TIM;DEL 1\n\
          ARM:LAY3:COUN 1000;SOUR EXT;DEL 1\nTRIG:COUN 100000;SOUR HOLD;DEL 1;:DIAG:SCAN:BOUN?\n",
        b"300002002002000\n",
    )
}

#[test]
fn one_timer_of_a_microsecond_and_one_of_an_hour(rt: HostRuntime) -> Result<(), Fail> {
    check(
        &rt,
        rt.alloc(),
        None,
        b"TRIG:TIM 0.0000005;TIM?;TIM 3600.0000004;TIM?;TIM 250 MS;TIM?\n\
          TRIG:TIM 0;TIM 3600.0000005;TIM?\nARM:TIM 2;:ARM:LAY1:TIM?;:ARM:LAYER3:TIM?\n\
          *RST;:ARM:TIM?;:TRIG:TIM?\nINIT:CONT TIM\nTRIG:TIM 1 H\nARM:LAY03:TIM 1\nSYST:ERR:ALL?\n",
        b"0.000001;3600.000000;0.250000\n0.250000\n2.000000;1.000000\n1.000000;1.000000\n\
          -222,\"Data out of range\",-222,\"Data out of range\",-224,\"Illegal parameter value\",\
          -131,\"Invalid suffix\",-114,\"Header suffix out of range\"\n",
    )
}
