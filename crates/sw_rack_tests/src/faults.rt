//! The message of each fault, behind the file's name.

use std::alloc::Global;
use std::test::Fail;
use sw_rack::read_rack;

/// Whether this is the message of the text's fault.
fn tells(alloc: Global, text: &str, wanted: &str) -> bool {
    let Err(error) = read_rack(alloc, text) else {
        return false;
    };
    match format!(in alloc; "{error}") {
        Ok(told) => told.as_str() == wanted,
        Err(_) => false,
    }
}

/// Whether this is the message for a card of simulated relays in slot 1 that has these lines, from line 5 on.
fn tells_of(alloc: Global, lines: &str, wanted: &str) -> bool {
    let head = "version = 1\n[slot.1]\ncard = \"relays\"\ndriver = \"simulated\"\n";
    match format!(in alloc; "{head}{lines}") {
        Ok(text) => tells(alloc, text.as_str(), wanted),
        Err(_) => false,
    }
}

/// Whether this is the message for a card of relays with this driver in slot 1 that has these lines, from line 6 on.
fn tells_by(alloc: Global, driver: &str, lines: &str, wanted: &str) -> bool {
    let head = "version = 1\n[slot.1]\ncard = \"relays\"\nchannels = 8\n";
    match format!(in alloc; "{head}driver = \"{driver}\"\n{lines}") {
        Ok(text) => tells(alloc, text.as_str(), wanted),
        Err(_) => false,
    }
}

#[test]
fn what_is_no_toml(rt: HostRuntime) -> Result<(), Fail> {
    let alloc = rt.alloc();
    assert!(rt;
        tells_of(
            alloc,
            "channels = 8\n\n[slot.1]\ncard=\"meter\"\n",
            "line 7: duplicate key"
        )
    );
    assert!(rt;
        tells_of(
            alloc,
            "channels = 8\ngroup = \n",
            "line 6: invalid value, expected a string, number, boolean, date-time, array or inline table"
        )
    );
    Ok(())
}

#[test]
fn faults_of_the_file(rt: HostRuntime) -> Result<(), Fail> {
    let alloc = rt.alloc();
    assert!(rt;
        tells(
            alloc,
            "[slot.1]\ncard = \"relays\"\n",
            "the file begins with `version = 1`"
        )
    );
    assert!(rt;
        tells(
            alloc,
            "# a rack\nversion = 2\n",
            "line 2: the file begins with `version = 1`"
        )
    );
    assert!(rt;
        tells(
            alloc,
            "version = 1\n",
            "no card: a card for slot 1 is a table `[slot.1]`"
        )
    );
    assert!(rt;
        tells(
            alloc,
            "version = 1\n\n[slots.1]\ncard = \"relays\"\n",
            "line 3: unknown key `slots`"
        )
    );
    assert!(rt;
        tells(
            alloc,
            "version = 1\n\n[slot.17]\n",
            "line 3: `17` is no slot: slots are 1 to 16"
        )
    );
    assert!(rt;
        tells(
            alloc,
            "version = 1\n\n[slot.01]\n",
            "line 3: `01` is no slot: slots are 1 to 16"
        )
    );
    assert!(rt;
        tells(
            alloc,
            "version = 1\n\n[slot.0]\n",
            "line 3: `0` is no slot: slots are 1 to 16"
        )
    );
    assert!(rt;
        tells(
            alloc,
            "version = 1\nslot = 3\n",
            "line 2: `slot` is a table, as `[slot.1]`"
        )
    );
    assert!(rt;
        tells(
            alloc,
            "version = 1\nslot.1 = 3\n",
            "line 2: slot 1: `1` is a table, as `[slot.1]`"
        )
    );
    Ok(())
}

#[test]
fn faults_of_a_key(rt: HostRuntime) -> Result<(), Fail> {
    let alloc = rt.alloc();
    assert!(rt;
        tells_of(
            alloc,
            "# a comment\nchanels = 8\nchannels = 8\n",
            "line 6: slot 1: unknown key `chanels`"
        )
    );
    assert!(rt; tells_of(alloc, "", "line 2: slot 1: `channels` is missing"));
    assert!(rt;
        tells_of(
            alloc,
            "channels = \"8\"\n",
            "line 5: slot 1: `channels` is a whole number, not string"
        )
    );
    assert!(rt;
        tells_of(
            alloc,
            "channels = 8.5\n",
            "line 5: slot 1: `channels` is a whole number, not float"
        )
    );
    assert!(rt;
        tells_of(
            alloc,
            "channels = 100\n",
            "line 5: slot 1: `channels` is from 1 to 99, not 100"
        )
    );
    assert!(rt;
        tells_of(
            alloc,
            "channels = 0\n",
            "line 5: slot 1: `channels` is from 1 to 99, not 0"
        )
    );
    assert!(rt;
        tells_of(
            alloc,
            "channels = 4294967297\n",
            "line 5: slot 1: `channels` is from 1 to 99, not 4294967297"
        )
    );
    assert!(rt;
        tells_of(
            alloc,
            "channels = 8\ngroup = -1\n",
            "line 6: slot 1: `group` is from 0 to 255, not -1"
        )
    );
    assert!(rt;
        tells_of(
            alloc,
            "channels = 8\nserial = 0\n",
            "line 6: slot 1: `serial` is from 1 to 4294967295, not 0"
        )
    );
    Ok(())
}

#[test]
fn faults_of_groups(rt: HostRuntime) -> Result<(), Fail> {
    let alloc = rt.alloc();
    assert!(rt;
        tells_of(
            alloc,
            "channels = 8\ngroup = 256\n",
            "line 6: slot 1: `group` is from 0 to 255, not 256"
        )
    );
    assert!(rt;
        tells_of(
            alloc,
            "channels = 2\ngroup = 1\ngroups = [\n 1,\n 2]\n",
            "line 2: slot 1: either `group` or `groups` is wanted"
        )
    );
    assert!(rt;
        tells_of(
            alloc,
            "channels = 8\ngroups = [\n 1,\n 2]\n",
            "line 6: slot 1: `groups` has 2 numbers for 8 channels"
        )
    );
    assert!(rt;
        tells_of(
            alloc,
            "channels = 1\ngroups = [\"1\"]\n",
            "line 6: slot 1: `groups` is a whole number, not string"
        )
    );
    assert!(rt;
        tells_of(
            alloc,
            "channels = 1\ngroups = 1\n",
            "line 6: slot 1: `groups` is a list of whole numbers, not integer"
        )
    );
    Ok(())
}

#[test]
fn faults_of_a_board(rt: HostRuntime) -> Result<(), Fail> {
    let alloc = rt.alloc();
    assert!(rt;
        tells_by(
            alloc,
            "modbus",
            "",
            "line 5: slot 1: `driver` is \"simulated\", \"modbus-tcp\", \
        \"modbus-rtu\", \"lines\" or \"scpi\", not \"modbus\""
        )
    );
    assert!(rt;
        tells_by(
            alloc,
            "modbus-tcp",
            "address = \"a:1\"\nfirst_coil = 65530\n",
            "line 7: slot 1: `first_coil`: the last channel's coil would be 65537, above 65535"
        )
    );
    assert!(rt;
        tells_by(
            alloc,
            "modbus-tcp",
            "",
            "line 2: slot 1: `address` is missing"
        )
    );
    assert!(rt;
        tells_by(
            alloc,
            "modbus-rtu",
            "device = \"/dev/ttyUSB0\"\nunit = 0\n",
            "line 7: slot 1: `unit` is from 1 to 247, not 0"
        )
    );
    assert!(rt;
        tells_by(
            alloc,
            "modbus-tcp",
            "address = \"a:1\"\nlimit_ms = 9\n",
            "line 7: slot 1: `limit_ms` is from 10 to 60000, not 9"
        )
    );
    assert!(rt;
        tells_by(
            alloc,
            "lines",
            "unit = 3\n",
            "line 6: slot 1: unknown key `unit` for relays with the driver \"lines\""
        )
    );
    assert!(rt;
        tells_by(
            alloc,
            "scpi",
            "address = \"a:1\"\ndevice = \"/dev/usbtmc0\"\n",
            "line 2: slot 1: either `address` or `device` is wanted"
        )
    );
    assert!(rt;
        tells_by(
            alloc,
            "scpi",
            "device = \"\"\n",
            "line 6: slot 1: `device` is empty"
        )
    );
    Ok(())
}

/// A board that obeys lines, but for its template and what follows.
fn tells_of_lines(alloc: Global, lines: &str, wanted: &str) -> bool {
    let head = "device = \"/dev/null\"\noff = \"x\"\nall_off = \"y\"\n";
    match format!(in alloc; "{head}{lines}") {
        Ok(text) => tells_by(alloc, "lines", text.as_str(), wanted),
        Err(_) => false,
    }
}

#[test]
fn faults_of_lines(rt: HostRuntime) -> Result<(), Fail> {
    let alloc = rt.alloc();
    assert!(rt;
        tells_of_lines(
            alloc,
            "on = \"relay {n}\"\n",
            "line 9: slot 1: `on`: within braces stand ch, ch0, ch:02, ch0:X or the like"
        )
    );
    assert!(rt; tells_of_lines(alloc, "", "line 2: slot 1: `on` is missing"));
    assert!(rt;
        tells_of_lines(
            alloc,
            "on = \"x\"\nanswer = \"ok\"\n",
            "line 2: slot 1: `answer_end` is missing"
        )
    );
    assert!(rt;
        tells_of_lines(
            alloc,
            "on = \"x\"\nanswer_end = \"\\n\"\nstate = \"? {ch}\"\nstate_on = \"1\"\n",
            "line 2: slot 1: `state_off` is missing"
        )
    );
    assert!(rt;
        tells_of_lines(
            alloc,
            "on = \"x\"\nstate_on = \"1\"\n",
            "line 2: slot 1: `state` is missing"
        )
    );
    assert!(rt;
        tells_by(
            alloc,
            "lines",
            "device = \"/dev/null\"\non = \"x\"\noff = \"y\"\nall_off = []\n",
            "line 9: slot 1: `all_off` is empty"
        )
    );
    assert!(rt;
        tells_by(
            alloc,
            "lines",
            "device = \"/dev/null\"\non = \"x\"\noff = \"y\"\nall_off = [1]\n",
            "line 9: slot 1: `all_off` is a string, not integer"
        )
    );
    Ok(())
}

/// A card of no kind, and a meter of none: the message has the words with those that are valid there, on one line.
#[test]
fn faults_of_words(rt: HostRuntime) -> Result<(), Fail> {
    let alloc = rt.alloc();
    assert!(rt;
        tells(
            alloc,
            "version = 1\n[slot.1]\ncard = \"relay\"\n",
            "line 3: slot 1: `card` is \"relays\" or \"meter\", not \"relay\""
        )
    );
    assert!(rt;
        tells(
            alloc,
            "version = 1\n[slot.1]\ncard = \"meter\"\ndriver = \"a\\nb\"\n",
            "line 4: slot 1: `driver` is \"simulated\" or \"scpi\", not \"a\\nb\""
        )
    );
    assert!(rt;
        tells(
            alloc,
            "version = 1\n\"a\\nb\" = 2\n",
            "line 2: unknown key `a\\nb`"
        )
    );
    Ok(())
}

/// The first fault is that of the lowest slot, anywhere in the file.
#[test]
fn slots_go_in_order(rt: HostRuntime) -> Result<(), Fail> {
    let alloc = rt.alloc();
    assert!(rt;
        tells(
            alloc,
            "version = 1\n[slot.10]\ncard = \"x\"\n[slot.2]\ncard = \"y\"\n",
            "line 5: slot 2: `card` is \"relays\" or \"meter\", not \"y\""
        )
    );
    Ok(())
}
